// The main body of a sheet, read and checked: 3 to 7, their places counted from the sheet's byte 0, with the actions that they
// name; and where it reads whole, what packing goes on with.
#![tactic(auto)]

ghost use Rattle.std.specs.Prelude.{◌≡◌, ◌≤◌, length};
ghost use Rattle.layout.specs.Pack.{fault_action};
ghost use Rattle.labels.specs.Table.{held};
ghost use Rattle.measure.specs.Walk.{SameNotes};
ghost use Rattle.positions.specs.Scanned.{meant};
ghost use Rattle.editions.specs.Allowed.{read_by};
ghost use Rattle.bodies.specs.Ready.{LengthsKept};
ghost use Rattle.scan.specs.Mains.{Empty};
ghost use Rattle.reading.specs.Readings.{MainRead};

use editions::MainBody;
use measure::Notes;
use positions::{ActionNumber, BytePosition, Fault, Halt};
use scan::scan_main;

// The position at which its writing would end, or a fault with its place in the sheet and the action that it names.
pub type Reading = Result<BytePosition, Halt>;

// The action that a fault names, met with this number of actions begun: TooDeep names the last, which owns the body, and any other
// the next. The main body is never too deep, so that there is a last.
#[tactic(auto, unfolding(layout::specs::Pack::fault_action, positions::specs::Scanned::meant))]
fn fault_action(fault: Fault, begun: ActionNumber) -> ActionNumber
    ensures { result.0 ≡ fault_action (meant fault) begun.0 }
{
    match fault {
        Fault::TooDeep => ActionNumber(begun.0.saturating_sub(1)),
        _ => begun,
    }
}

// Reads a main body that starts at `start` in its sheet. The notes are lent empty; of the homes as many are kept as there are slots.
pub fn read_main(m: &MainBody<'_>, start: usize, notes: &mut Notes<'_, '_>) -> Reading
    requires { (length m.now.b.now ≤ 1048576) × (start ≤ 1048576) × Empty (read_by m.now) notes.old }
    ensures read { MainRead (read_by m.now) m.now.b.now start notes.new result }
    ensures kept { LengthsKept (held notes.old.labels.now) (held notes.new.labels.now) }
    ensures same_references { SameNotes notes.old notes.new }
{
    match scan_main(m, notes) {
        Ok(end) => Ok(end.pos),
        Err(halt) => Err(Halt {
            fault: halt.fault,
            place: start + halt.place,
            number: fault_action(halt.fault, halt.number),
        }),
    }
}
