// The walk of bodies and actions, front to back: it reads and checks (3 to 6), measures, counts, records labels, and notes the
// first of 8 and 9. `home` is the position at which the function body starts that it is in; only a function's body has another. It is
// no part of a cursor, since it does not move with the walk.
#![tactic(auto)]

ghost use Rattle.std.specs.Prelude.{◌≡◌, ◌+◌, ◌≤◌, ◌<◌, length, get_or};
ghost use Rattle.layout.specs.Tree.{count, body_count};
ghost use Rattle.layout.specs.Read.{placed, behind, read_body, read_action};
ghost use Rattle.layout.specs.Lengths.{total};
ghost use Rattle.laws.specs.Resolved.{action_size, action_trace, body_length, body_events};
ghost use Rattle.positions.specs.Scanned.{halts_at};
ghost use Rattle.editions.specs.Allowed.{read_by};
ghost use Rattle.labels.specs.Table.{held};
ghost use Rattle.measure.specs.Walk.{kept_in, SameNotes, standing, outcome, Ran, in_turn, bodies_events};
ghost use Rattle.front.specs.Front.{Fronted};
ghost use Rattle.bodies.specs.Ready.{next_after, LengthsKept, Ready};

use editions::MainBody;
use fields::u16_at;
use front::scan_front;
use labels::{due_entry, record_labels};
use measure::{Laid, Limit, Notes, Overflow, note_long};
use opcode::OpCode;
use payload::scan_payload;
use positions::{ActionIndex, ActionNumber, BytePosition, Cursor, Fault, Halt, Spot, Walked};

// A fault, met in the action with a number or before it. It is called in the arms of a match: `map_err` before `?` takes a closure,
// and leaves goals of its own in each of its callers.
fn halted(fault: Fault, place: usize, number: ActionNumber) -> Walked
    ensures { result ≡ halts_at fault place number }
{
    Err(Halt {
        fault,
        place,
        number,
    })
}

// Where a walk stands behind the payload of an action: its bodies have the numbers after the action's own.
pub fn next_after(after: Spot, owner: ActionNumber) -> Cursor
    requires { owner.0 < usize.MAX }
    ensures { result ≡ next_after after owner }
{
    Cursor {
        at: after.at,
        pos: after.pos,
        number: ActionNumber(owner.0 + 1),
    }
}

// A body; as many as `depth` may stand one in another, itself included.
#[cycle(scanning)]
pub fn scan_body(
    m: &MainBody<'_>,
    from: Cursor,
    depth: usize,
    home: BytePosition,
    notes: &mut Notes<'_, '_>,
) -> Walked
    requires { Ready (read_by m.now) m.now.b.now from notes.old }
    ensures ran { Ran (outcome body_length body_count body_events (standing from.pos home from.number) (kept_in notes.old) (read_body (read_by m.now) m.now.b.now depth (placed from.at))) result (kept_in notes.new) }
    ensures kept { LengthsKept (held notes.old.labels.now) (held notes.new.labels.now) }
    ensures same_references { SameNotes notes.old notes.new }
{
    if depth == 0 {
        return halted(Fault::TooDeep, from.at, from.number);
    }
    let start = Spot {
        at: from.at,
        pos: from.pos,
    };
    match scan_front(m, start) {
        Err(stop) => halted(stop.fault, stop.place, from.number),
        Ok(front) => scan_actions(m, from, front.at, depth - 1, home, notes),
    }
}

// The actions of a body whose front ends at place `front`; bodies of `depth` may stand in them.
#[cycle(scanning)]
fn scan_actions(
    m: &MainBody<'_>,
    from: Cursor,
    front: usize,
    depth: usize,
    home: BytePosition,
    notes: &mut Notes<'_, '_>,
) -> Walked
    requires { Ready (read_by m.now) m.now.b.now from notes.old × Fronted (read_by m.now) m.now.b.now from.at front × (from.at + 4 ≤ front) × (front ≤ length m.now.b.now) }
    ensures ran { Ran (outcome body_length body_count body_events (standing from.pos home from.number) (kept_in notes.old) (read_body (read_by m.now) m.now.b.now (depth + 1) (placed from.at))) result (kept_in notes.new) }
    ensures kept { LengthsKept (held notes.old.labels.now) (held notes.new.labels.now) }
    ensures same_references { SameNotes notes.old notes.new }
{
    let entries = &m.b[from.at + 2..front - 2];
    let count = u16_at(m.b, front - 2) as u32;
    let mut due = due_entry(entries, 0);
    let mut here = Cursor { at: front, ..from };
    for i in 0..count {
        let labels = &mut *notes.labels;
        due = record_labels(entries, due, ActionIndex(i), here.pos, home, labels);
        here = scan_action(m, here, depth, home, notes)?;
    }
    let labels = &mut *notes.labels;
    record_labels(entries, due, ActionIndex(count), here.pos, home, labels);
    Ok(here)
}

// The n bodies after the payload of an action; their lengths are tested when all are measured.
#[cycle(scanning)]
fn scan_bodies(
    m: &MainBody<'_>,
    after: Spot,
    n: usize,
    owner: ActionNumber,
    depth: usize,
    home: BytePosition,
    notes: &mut Notes<'_, '_>,
) -> Walked
    requires { Ready (read_by m.now) m.now.b.now (next_after after owner) notes.old }
    ensures ran { Ran (outcome (total body_length) (total body_count) (bodies_events owner.0) (standing after.pos home (next_after after owner).number) (kept_in notes.old) (in_turn (read_body (read_by m.now) m.now.b.now depth) n (placed after.at))) result (kept_in notes.new) }
    ensures kept { LengthsKept (held notes.old.labels.now) (held notes.new.labels.now) }
    ensures same_references { SameNotes notes.old notes.new }
{
    let mut here = next_after(after, owner);
    let mut long = None;
    for _ in 0..n {
        let next = scan_body(m, here, depth, home, notes)?;
        let len = next.pos.0 - here.pos.0;
        note_long(
            &mut long,
            Overflow {
                limit: Limit::BlockLen,
                len,
                action: owner,
            },
        );
        here = next;
    }
    notes.over = notes.over.or(long);
    Ok(here)
}

// An action; bodies of `depth` may stand in it.
#[cycle(scanning)]
fn scan_action(
    m: &MainBody<'_>,
    from: Cursor,
    depth: usize,
    home: BytePosition,
    notes: &mut Notes<'_, '_>,
) -> Walked
    requires { Ready (read_by m.now) m.now.b.now from notes.old }
    ensures ran { Ran (outcome action_size count action_trace (standing from.pos home from.number) (kept_in notes.old) (read_action (read_by m.now) m.now.b.now (behind 1 (read_body (read_by m.now) m.now.b.now depth)) (placed from.at))) result (kept_in notes.new) }
    ensures kept { LengthsKept (held notes.old.labels.now) (held notes.new.labels.now) }
    ensures same_references { SameNotes notes.old notes.new }
{
    if m.b.len() <= from.at {
        return halted(Fault::CutShort, from.at, from.number);
    }
    let op = m.b[from.at];
    if 0x80 <= op {
        return scan_large(m, op, from, depth, home, notes);
    }
    if !OpCode::is_listed(op) {
        return halted(Fault::UnknownCode, from.at, from.number);
    }
    let pos = BytePosition(from.pos.0 + OpCode::SMALL_LEN);
    Ok(next_after(
        Spot {
            at: from.at + 1,
            pos,
        },
        from.number,
    ))
}

// An action from opcode 80 on: its payload, then its bodies, of which `depth` may stand one in another.
#[cycle(scanning)]
fn scan_large(
    m: &MainBody<'_>,
    op: u8,
    from: Cursor,
    depth: usize,
    home: BytePosition,
    notes: &mut Notes<'_, '_>,
) -> Walked
    requires { (128 ≤ op) × (from.at < length m.now.b.now) × (op ≡ get_or m.now.b.now from.at 0) × Ready (read_by m.now) m.now.b.now from notes.old }
    ensures ran { Ran (outcome action_size count action_trace (standing from.pos home from.number) (kept_in notes.old) (read_action (read_by m.now) m.now.b.now (behind 1 (read_body (read_by m.now) m.now.b.now depth)) (placed from.at))) result (kept_in notes.new) }
    ensures kept { LengthsKept (held notes.old.labels.now) (held notes.new.labels.now) }
    ensures same_references { SameNotes notes.old notes.new }
{
    let number = from.number;
    match scan_payload(m, op, from, &mut notes.over) {
        Err(stop) => halted(stop.fault, stop.place, number),
        Ok(Laid::Flat(after)) => Ok(next_after(after, number)),
        Ok(Laid::Branch(after, _)) => Ok(next_after(after, number)),
        Ok(Laid::Bodies(after, n)) => scan_bodies(m, after, n, number, depth, home, notes),
        Ok(Laid::Function(after)) => scan_bodies(m, after, 1, number, depth, after.pos, notes),
    }
}
