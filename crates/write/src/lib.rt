// The cycle that writes a main body whose labels are known: a body writes its actions, and an action its bodies.
#![tactic(auto)]

ghost use Rattle.std.specs.Prelude.{◌≡◌, ◌+◌, ◌≤◌};
ghost use Rattle.std.proofs.lemmas.List.Edits.{sets};
ghost use Rattle.laws.specs.Resolved.{body_length, action_size};
ghost use Rattle.editions.specs.Allowed.{read_by};
ghost use Rattle.write.specs.Bodies.{bodies_of, body_by, action_by, read_if, read_tried, length_if, length_tried, near_of, near_if, near_tried, near_action, body_of, action_of, closed, closed_if, closed_tried, Room, Wrote, MainWritable, AppendedMain, WroteBlock};

use editions::MainBody;
use encode::write_head;
use fields::u16_at;
use opcode::OpCode;
use pcode::{Action, action_at};
use positions::{BytePosition, DEEPEST, Spot};
use writer::{Writer, write_block_length_at};

// The bodies that follow an action's payload: one, or those of a Try by its shape.
#[derive(Clone, Copy)]
pub enum Bodies {
    One,
    OfTry(u8),
}

// The bodies of an action, if it has any.
#[tactic(auto, unfolding(crate::specs::Bodies::bodies_of))]
fn bodies_of(a: Action) -> Option<Bodies>
    ensures { result ≡ bodies_of a }
{
    match a {
        Action::DefineFunction(_) | Action::DefineFunction2(_) | Action::With(_) => Some(
            Bodies::One,
        ),
        Action::Try(shape, _, _) => Some(Bodies::OfTry(shape)),
        _ => None,
    }
}

// A body, whose length is patched in at `len_at` when it is closed.
#[cycle(writing)]
fn write_block(
    m: &MainBody<'_>,
    from: Spot,
    depth: usize,
    len_at: BytePosition,
    tab: &[usize],
    out: &mut [u8],
) -> Spot
    requires { Room m.now (body_by m.now depth) body_length near_of from.at from.pos.0 tab.now out.old × (len_at.0 + 2 ≤ from.pos.0) }
    ensures { Wrote (body_by m.now depth) body_length (closed tab.now out.old from.pos.0 len_at.0) from.at from.pos.0 out.new result }
{
    let end = write_actions(m, from, depth, tab, out);
    write_block_length_at(out, len_at, from.pos, end.pos);
    end
}

// The same, if the body is present: in `write_block` this would be a flag that its other callers set.
#[cycle(writing)]
fn write_block_if(
    m: &MainBody<'_>,
    present: bool,
    from: Spot,
    depth: usize,
    len_at: BytePosition,
    tab: &[usize],
    out: &mut [u8],
) -> Spot
    requires { Room m.now (read_if present (body_by m.now depth)) length_if near_if from.at from.pos.0 tab.now out.old × (len_at.0 + 2 ≤ from.pos.0) }
    ensures { Wrote (read_if present (body_by m.now depth)) length_if (closed_if tab.now out.old from.pos.0 len_at.0) from.at from.pos.0 out.new result }
{
    if !present {
        return from;
    }
    write_block(m, from, depth, len_at, tab, out)
}

// The bodies of a Try; the first of their lengths stands at `len_at`.
#[cycle(writing)]
fn write_try_blocks(
    m: &MainBody<'_>,
    shape: u8,
    from: Spot,
    depth: usize,
    len_at: BytePosition,
    tab: &[usize],
    out: &mut [u8],
) -> Spot
    requires { Room m.now (read_tried shape (body_by m.now depth)) length_tried near_tried from.at from.pos.0 tab.now out.old × (len_at.0 + 6 ≤ from.pos.0) }
    ensures { Wrote (read_tried shape (body_by m.now depth)) length_tried (closed_tried tab.now out.old from.pos.0 len_at.0) from.at from.pos.0 out.new result }
{
    let t = write_block(m, from, depth, len_at, tab, out);
    let second = BytePosition(len_at.0 + 2);
    let c = write_block_if(m, shape % 2 == 1, t, depth, second, tab, out);
    let third = BytePosition(len_at.0 + 4);
    write_block_if(m, shape / 2 % 2 == 1, c, depth, third, tab, out)
}

// An action within which `depth` bodies may stand one in another. The length of an only body is the payload's last two bytes; the
// three of a Try stand behind its shape.
#[cycle(writing)]
fn write_action(m: &MainBody<'_>, from: Spot, depth: usize, tab: &[usize], out: &mut [u8]) -> Spot
    requires { Room m.now (action_by m.now depth) action_size near_action from.at from.pos.0 tab.now out.old }
    ensures { Wrote (action_by m.now depth) action_size (λ x. sets out.old from.pos.0 (action_of tab.now x from.pos.0)) from.at from.pos.0 out.new result }
{
    let a = action_at(m, from.at);
    let e = write_head(m, from, a, tab, out);
    match bodies_of(a) {
        None => e,
        Some(Bodies::One) => {
            let last = BytePosition(e.pos.0 - 2);
            write_block(m, e, depth, last, tab, out)
        }
        Some(Bodies::OfTry(shape)) => {
            let first = BytePosition(from.pos.0 + OpCode::HEADER_LEN + 1);
            write_try_blocks(m, shape, e, depth, first, tab, out)
        }
    }
}

// A body with `depth` levels allowed, itself included. Its label entries are stepped over.
#[cycle(writing)]
fn write_actions(m: &MainBody<'_>, from: Spot, depth: usize, tab: &[usize], out: &mut [u8]) -> Spot
    requires { Room m.now (body_by m.now depth) body_length near_of from.at from.pos.0 tab.now out.old }
    ensures { Wrote (body_by m.now depth) body_length (λ x. sets out.old from.pos.0 (body_of tab.now x from.pos.0)) from.at from.pos.0 out.new result }
{
    let front = from.at + 2 + 4 * u16_at(m.b, from.at);
    let count = u16_at(m.b, front);
    let mut spot = Spot {
        at: front + 2,
        pos: from.pos,
    };
    for _ in 0..count {
        spot = write_action(m, spot, depth - 1, tab, out);
    }
    spot
}

// The main body's actions are appended to a writer that stands at the block's start.
fn append_main<'a>(w: Writer<'a>, m: &MainBody<'_>, tab: &[usize]) -> Writer<'a>
    requires { (w.at.0 ≡ 0) × MainWritable (read_by m.now) m.now.b.now tab.now w.out.now }
    ensures same_reference { result.out.ghost_name ≡ w.entry.out.ghost_name }
    ensures appends { AppendedMain (read_by m.now) m.now.b.now w.entry result }
{
    let start = Spot { at: 0, pos: w.at };
    let end = write_actions(m, start, DEEPEST, tab, &mut *w.out);
    Writer {
        out: w.out,
        at: end.pos,
    }
}

// A writer over the output, once it has taken a main body's actions and one End.
fn main_at<'o>(out: &'o mut [u8], m: &MainBody<'_>, tab: &[usize]) -> Writer<'o>
    requires { MainWritable (read_by m.now) m.now.b.now tab.now out.old }
    ensures same_reference { result.out.ghost_name ≡ out.entry.ghost_name }
    ensures appends { WroteBlock (read_by m.now) m.now.b.now out.old result.out.now result.at }
{
    append_main(Writer::new(out, BytePosition(0)), m, tab).append(OpCode::END)
}

// The block of a main body: one writer over the output takes its actions, then one End. Answers the position reached, which is the
// block's length.
pub fn write_main(m: &MainBody<'_>, tab: &[usize], out: &mut [u8]) -> BytePosition
    requires { MainWritable (read_by m.now) m.now.b.now tab.now out.old }
    ensures { WroteBlock (read_by m.now) m.now.b.now out.old out.new result }
{
    main_at(out, m, tab).finish()
}
