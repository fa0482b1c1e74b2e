// What a walk of a main body keeps: the label tables and the first overflow. And what the payload of an action comes to: where it
// ends, and how many bodies follow.
#![tactic(auto)]

ghost use Rattle.std.specs.Prelude.{◌≡◌};
ghost use Rattle.measure.specs.Walk.{noted_if, noted_from, EndsFrom};

use labels::Tables;
use positions::{ActionNumber, Cursor, Scan, Spot, Stop};

// Which length is over 65,535: a payload's, 8, or a body's, 9. A caller may note one of another number, which the walks keep as it is.
#[derive(Clone, Copy)]
pub enum Limit {
    ActionLen,
    BlockLen,
    Other(usize),
}

// A length over 65,535, and the number of the action whose payload or body has it.
#[derive(Clone, Copy)]
pub struct Overflow {
    pub limit: Limit,
    pub len: usize,
    pub action: ActionNumber,
}

// What a walk keeps: the label tables, and the first overflow. The tables are lent, since a proof follows a slice that is lent in a
// struct, but not in a struct within another.
#[derive(Drop)]
pub struct Notes<'a, 'b> {
    pub labels: &'a mut Tables<'b>,
    pub over: Option<Overflow>,
}

// The spot after a payload, with a branch's label, or how many bodies follow. The body of a function is told apart: what stands in it
// has another home than the function.
#[derive(Clone, Copy)]
pub enum Laid {
    Flat(Spot),
    Branch(Spot, usize),
    Bodies(Spot, usize),
    Function(Spot),
}

// What reading a payload comes to.
pub type Payload = Result<Laid, Stop>;

// Notes a length where it is over 65,535, unless one was noted before.
pub fn note_long(over: &mut Option<Overflow>, found: Overflow)
    ensures { over.new ≡ noted_if found over.old }
{
    if 65535 < found.len {
        *over = over.or(Some(found));
    }
}

// Notes the length of a payload that starts at `start`, in the action with its number, where it was read and is too long.
pub fn note_payload(payload: Scan, start: Cursor, over: &mut Option<Overflow>) -> Scan
    requires { EndsFrom start.pos.0 payload }
    ensures { (result ≡ payload) × (over.new ≡ noted_from start.pos.0 start.number.0 payload over.old) }
{
    let end = payload?;
    note_long(
        over,
        Overflow {
            limit: Limit::ActionLen,
            len: end.pos.0 - start.pos.0,
            action: start.number,
        },
    );
    Ok(end)
}
