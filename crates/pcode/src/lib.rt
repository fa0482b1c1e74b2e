// The actions and push values of source 001 as they stand in a main body: cases hold numbers, places and lengths.
#![tactic(auto)]

ghost use Rattle.std.specs.Prelude.{◌≡◌, ◌+◌, ◌≤◌, length};
ghost use Rattle.pcode.specs.Shown.{span_at, function_at, get_url_at, after_try, try_at, ValueReads, TakesValue, ActionReads, TakesAction};

use editions::MainBody;
use fields::{u16_at, u32_at, u64_at};
use opcode::{OpCode, PushKind};
use words::word_at;

// A run of bytes of the main body, or of the words of a book, and the place in the main body after the string. It holds places and no
// slice: contracts say what a span is by `≡`, which for a slice would compare where it lies.
#[derive(Clone, Copy)]
pub struct Span {
    pub from_book: bool,
    pub at: usize,
    pub len: usize,
    pub next: usize,
}

// A Try's catch target is a name or a register.
#[derive(Clone, Copy)]
pub enum CatchTarget {
    Variable(Span),
    Register(u8),
}

// A pushed value; a double is its 64 bits, an integer its 32.
#[derive(Clone, Copy)]
pub enum PushValue {
    String(Span),
    Null,
    Undefined,
    Register(u8),
    Boolean(u8),
    Float(u64),
    Integer(u32),
    Constant(usize),
}

// A pushed value and the place after it.
#[derive(Clone, Copy)]
pub struct PushAt {
    pub value: PushValue,
    pub next: usize,
}

// A function's name, the count of its parameters and the first one's place.
#[derive(Clone, Copy)]
pub struct Function {
    pub name: Span,
    pub count: usize,
    pub at: usize,
}

// An action. A list (ConstantPool, Push) is its count and its first element's place; With and Try hold their first body's place.
// A flag is the byte that stands in the sheet, 0 or 1, since it is written as a bit of a byte.
#[derive(Clone, Copy)]
pub enum Action {
    Small(u8),
    GotoFrame(usize),
    GetUrl(Span, Span),
    StoreRegister(u8),
    ConstantPool(usize, usize),
    WaitForFrame(usize, u8),
    SetTarget(Span),
    GotoLabel(Span),
    WaitForFrame2(u8),
    DefineFunction2(Function),
    Try(u8, Option<CatchTarget>, usize),
    With(usize),
    Push(usize, usize),
    Jump(usize),
    GetUrl2(u8, u8, u8),
    DefineFunction(Function),
    If(usize),
    GotoFrame2(usize, u8),
}

// The string at a place: its bytes stand behind its length, or the number of a word does.
#[tactic(auto, using(crate::proofs::Readings::span_least), unfolding(crate::specs::Shown::span_at))]
pub fn span_at(m: &MainBody<'_>, at: usize) -> Span
    requires { (span_at m.now at).next ≤ length m.now.b.now }
    ensures { result ≡ span_at m.now at }
{
    let n = u16_at(m.b, at);
    let p = at + 2;
    match m.terms.word_count {
        Some(count) if n == 65535 => {
            let word = word_at(m, count as usize, u16_at(m.b, p));
            Span {
                from_book: true,
                at: word.at,
                len: word.len,
                next: p + 2,
            }
        }
        _ => Span {
            from_book: false,
            at: p,
            len: n,
            next: p + n,
        },
    }
}

// The pushed value at a place where one reads.
pub fn push_value_at(m: &MainBody<'_>, at: usize) -> PushAt
    requires { ValueReads m.now at }
    ensures { TakesValue m.now at result }
{
    let Some(kind) = PushKind::of(m.b[at]) else {
        unreachable!()
    };
    let p = at + 1;
    let (value, next) = match kind {
        PushKind::String => {
            let string = span_at(m, p);
            (PushValue::String(string), string.next)
        }
        PushKind::Null => (PushValue::Null, p),
        PushKind::Undefined => (PushValue::Undefined, p),
        PushKind::Register => (PushValue::Register(m.b[p]), p + 1),
        PushKind::Boolean => (PushValue::Boolean(m.b[p]), p + 1),
        PushKind::Float => (PushValue::Float(u64_at(m.b, p)), p + 8),
        PushKind::Integer => (PushValue::Integer(u32_at(m.b, p)), p + 4),
        PushKind::Constant => (PushValue::Constant(u16_at(m.b, p)), p + 2),
    };
    PushAt { value, next }
}

// A name at a place, and the parameters behind it.
fn function_at(m: &MainBody<'_>, at: usize) -> Function
    requires { (function_at m.now at).at ≤ length m.now.b.now }
    ensures { result ≡ function_at m.now at }
{
    let name = span_at(m, at);
    let p = name.next;
    Function {
        name,
        count: u16_at(m.b, p),
        at: p + 2,
    }
}

// The two strings of a GetUrl.
#[tactic(auto, using(crate::proofs::Readings::span_least))]
fn get_url_at(m: &MainBody<'_>, at: usize) -> Action
    requires { (span_at m.now (span_at m.now at).next).next ≤ length m.now.b.now }
    ensures { result ≡ get_url_at m.now at }
{
    let url = span_at(m, at);
    Action::GetUrl(url, span_at(m, url.next))
}

// A Try's shape, its catch target and its first body's place.
#[tactic(auto, using(crate::proofs::Readings::span_least), unfolding(layout::specs::Read::has_catch, layout::specs::Read::has_register))]
fn try_at(m: &MainBody<'_>, at: usize) -> Action
    requires { after_try m.now at ≤ length m.now.b.now }
    ensures { result ≡ try_at m.now at }
{
    let shape = m.b[at];
    let p = at + 1;
    if shape % 2 == 0 {
        return Action::Try(shape, None, p);
    }
    if shape / 4 % 2 == 0 {
        let name = span_at(m, p);
        return Action::Try(shape, Some(CatchTarget::Variable(name)), name.next);
    }
    Action::Try(shape, Some(CatchTarget::Register(m.b[p])), p + 1)
}

// The action at a place where one reads.
// It goes into its caller at once: the case that it makes is then the one that is written, and no action is built in memory.
#[inline(always)]
pub fn action_at(m: &MainBody<'_>, at: usize) -> Action
    requires { ActionReads m.now at }
    ensures { TakesAction m.now at result }
{
    let p = at + 1;
    match m.b[at] {
        OpCode::GOTO_FRAME => Action::GotoFrame(u16_at(m.b, p)),
        OpCode::GET_URL => get_url_at(m, p),
        OpCode::STORE_REGISTER => Action::StoreRegister(m.b[p]),
        OpCode::CONSTANT_POOL => Action::ConstantPool(u16_at(m.b, p), p + 2),
        OpCode::WAIT_FOR_FRAME => Action::WaitForFrame(u16_at(m.b, p), m.b[p + 2]),
        OpCode::SET_TARGET => Action::SetTarget(span_at(m, p)),
        OpCode::GOTO_LABEL => Action::GotoLabel(span_at(m, p)),
        OpCode::WAIT_FOR_FRAME2 => Action::WaitForFrame2(m.b[p]),
        OpCode::DEFINE_FUNCTION2 => Action::DefineFunction2(function_at(m, p)),
        OpCode::TRY => try_at(m, p),
        OpCode::WITH => Action::With(p),
        OpCode::PUSH => Action::Push(u16_at(m.b, p), p + 2),
        OpCode::JUMP => Action::Jump(u16_at(m.b, p)),
        OpCode::GET_URL2 => Action::GetUrl2(m.b[p], m.b[p + 1], m.b[p + 2]),
        OpCode::DEFINE_FUNCTION => Action::DefineFunction(function_at(m, p)),
        OpCode::IF => Action::If(u16_at(m.b, p)),
        OpCode::GOTO_FRAME2 => Action::GotoFrame2(u16_at(m.b, p), m.b[p + 2]),
        op => Action::Small(op),
    }
}
