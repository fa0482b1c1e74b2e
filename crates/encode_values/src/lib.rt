// Strings, lists and push values, written into a lent output. `pos` is the position in the block before what is written, and `next`
// the place in the main body behind it.
#![tactic(auto)]

ghost use Rattle.std.specs.Prelude.{◌≡◌, ℕ, length, ltb};
ghost use Rattle.layout.specs.Payload.{constant_bytes};
ghost use Rattle.editions.specs.declared.MainBody.{MainBody};
ghost use Rattle.pcode.specs.Shown.{span_of, Held};
ghost use Rattle.encode_values.specs.Pieces.{Piece, piece, action, string_at, param_at, value_at, strings_at, params_at, values_at, Room, Put};
ghost use Rattle.encode_values.specs.Cases.{case_bytes, CaseHeld};
ghost use Rattle.encode_values.specs.Joins.{Joins, strings_join, params_join, values_join};

use editions::MainBody;
use opcode::{OpCode, PushKind};
use pcode::{PushAt, PushValue, Span, push_value_at, span_at};
use positions::{BytePosition, Spot};
use stores::{Double, Low16, Store, ZeroEnded};
use words::text_of;
use writer::write_action_header;

// ---- one value

// A string, from the part of the main body or of the words that holds it.
pub fn string_of<'a>(m: &MainBody<'a>, s: Span) -> ZeroEnded<'a>
    requires { Held m.now s }
    ensures { result.0.now ≡ span_of m.now s }
{
    ZeroEnded(text_of(m, s.from_book, s.at, s.len))
}

// A value.
pub fn write_piece<T: Store>(out: &mut [u8], pos: BytePosition, v: T, next: usize) -> Spot
    requires { Room (piece (T.bytes v) next) pos.0 out.old }
    ensures { Put (piece (T.bytes v) next) pos.0 out.old out.new result }
{
    let end = v.store(out, pos.0);
    Spot {
        at: next,
        pos: BytePosition(end),
    }
}

// An action: its header, and its fields as the payload. The header comes last, when the payload's length is known.
pub fn write_action<T: Store>(
    out: &mut [u8],
    pos: BytePosition,
    op: u8,
    fields: T,
    next: usize,
) -> Spot
    requires { Room (action op (T.bytes fields) next) pos.0 out.old }
    ensures { Put (action op (T.bytes fields) next) pos.0 out.old out.new result }
{
    let start = pos.0 + OpCode::HEADER_LEN;
    let end = write_piece(out, BytePosition(start), fields, next);
    write_action_header(out, pos, op, end.pos.0 - start);
    end
}

// The same, with the length that the payload has by its opcode: the header comes first.
pub fn write_measured_action<T: Store>(
    out: &mut [u8],
    pos: BytePosition,
    op: u8,
    len: usize,
    fields: T,
    next: usize,
) -> Spot
    requires { (len ≡ length (T.bytes fields)) × Room (action op (T.bytes fields) next) pos.0 out.old }
    ensures { Put (action op (T.bytes fields) next) pos.0 out.old out.new result }
{
    let payload = write_action_header(out, pos, op, len);
    write_piece(out, payload, fields, next)
}

// A push value, of the length that it has by its kind.
fn write_measured<T: Store>(
    out: &mut [u8],
    pos: BytePosition,
    len: usize,
    v: T,
    next: usize,
) -> Spot
    requires { (len ≡ length (T.bytes v)) × Room (piece (T.bytes v) next) pos.0 out.old }
    ensures { Put (piece (T.bytes v) next) pos.0 out.old out.new result }
{
    let end = write_piece(out, pos, v, next);
    Spot {
        pos: BytePosition(pos.0 + len),
        ..end
    }
}

// In a block, the kind of a constant whose number takes two bytes.
const WIDE_CONSTANT: u8 = 9;

// A constant's number in one byte behind one kind, or in two behind another.
fn write_constant(out: &mut [u8], pos: BytePosition, n: usize, next: usize) -> Spot
    requires { Room (piece (constant_bytes (ltb n 256) n) next) pos.0 out.old }
    ensures { Put (piece (constant_bytes (ltb n 256) n) next) pos.0 out.old out.new result }
{
    let len = OpCode::push_constant_len(n);
    if n < 256 {
        write_measured(out, pos, len, (PushKind::Constant as u8, n as u8), next)
    } else {
        write_measured(out, pos, len, (WIDE_CONSTANT, Low16(n)), next)
    }
}

// A push value behind its kind.
fn write_push_value(out: &mut [u8], m: &MainBody<'_>, pos: BytePosition, v: PushAt) -> Spot
    requires { CaseHeld m.now v.value × Room (piece (case_bytes m.now v.value) v.next) pos.0 out.old }
    ensures { Put (piece (case_bytes m.now v.value) v.next) pos.0 out.old out.new result }
{
    let PushAt { value, next } = v;
    let alone = OpCode::PUSH_KIND_LEN;
    let byte = OpCode::PUSH_U8_LEN;
    match value {
        PushValue::String(s) => {
            let len = alone + OpCode::string_len(s.len);
            let string = (PushKind::String as u8, string_of(m, s));
            write_measured(out, pos, len, string, next)
        }
        PushValue::Null => write_measured(out, pos, alone, PushKind::Null as u8, next),
        PushValue::Undefined => write_measured(out, pos, alone, PushKind::Undefined as u8, next),
        PushValue::Register(r) => {
            write_measured(out, pos, byte, (PushKind::Register as u8, r), next)
        }
        PushValue::Boolean(t) => {
            write_measured(out, pos, byte, (PushKind::Boolean as u8, t), next)
        }
        PushValue::Float(bits) => {
            let float = (PushKind::Float as u8, Double(bits));
            write_measured(out, pos, OpCode::PUSH_FLOAT_LEN, float, next)
        }
        PushValue::Integer(n) => {
            let integer = (PushKind::Integer as u8, n);
            write_measured(out, pos, OpCode::PUSH_INTEGER_LEN, integer, next)
        }
        PushValue::Constant(n) => write_constant(out, pos, n, next),
    }
}

// ---- lists

// What a list in a main body holds: the element at a place, and so many from a place on.
pub trait Elements {
    ghost one: { MainBody → ℕ → Piece };

    ghost list: { MainBody → ℕ → ℕ → Piece };

    // The element at a spot.
    fn write_one(out: &mut [u8], m: &MainBody<'_>, from: Spot) -> Spot
        requires { Room (one m.now from.at) from.pos.0 out.old }
        ensures { Put (one m.now from.at) from.pos.0 out.old out.new result };

    ghost joins: { (m : MainBody) → Joins (one m) (list m) };
}

// Strings: of a ConstantPool, and the parameters of a DefineFunction.
pub struct Strings;

impl Elements for Strings {
    ghost one = { string_at };

    ghost list = { strings_at };

    ghost joins = { strings_join };

    fn write_one(out: &mut [u8], m: &MainBody<'_>, from: Spot) -> Spot {
        let s = span_at(m, from.at);
        write_piece(out, from.pos, string_of(m, s), s.next)
    }
}

// The parameters of a DefineFunction2: each is a register and then a name.
pub struct Params;

impl Elements for Params {
    ghost one = { param_at };

    ghost list = { params_at };

    ghost joins = { params_join };

    fn write_one(out: &mut [u8], m: &MainBody<'_>, from: Spot) -> Spot {
        let s = span_at(m, from.at + 1);
        write_piece(out, from.pos, (m.b[from.at], string_of(m, s)), s.next)
    }
}

// The values of a Push, each behind its kind.
pub struct PushValues;

impl Elements for PushValues {
    ghost one = { value_at };

    ghost list = { values_at };

    ghost joins = { values_join };

    fn write_one(out: &mut [u8], m: &MainBody<'_>, from: Spot) -> Spot {
        let v = push_value_at(m, from.at);
        write_push_value(out, m, from.pos, v)
    }
}

// n elements from a spot on.
pub fn write_list<E: Elements>(out: &mut [u8], m: &MainBody<'_>, n: usize, from: Spot) -> Spot
    requires { Room (E.list m.now n from.at) from.pos.0 out.old }
    ensures { Put (E.list m.now n from.at) from.pos.0 out.old out.new result }
{
    let mut to = from;
    for _ in 0..n {
        to = E::write_one(out, m, to);
    }
    to
}

#[cfg(test)]
mod tests {
    use super::*;

    // By source 000's write_wait_for_frame: the opcode, 3 as the length, the frame and the skip.
    #[test]
    fn writes_an_action(rt: HostRuntime) {
        let mut out = [0xEE; 8];
        let fields = (Low16(0x0201), 3u8);
        let end = write_action(&mut out, BytePosition(1), OpCode::WAIT_FOR_FRAME, fields, 9);
        assert_eq!(rt; out, [0xEE, 0x8A, 3, 0, 1, 2, 3, 0xEE]);
        assert_eq!(rt; end.at, 9);
        assert_eq!(rt; end.pos.0, 7);
    }
}
