// The walk of a whole main body: 3 to 7, where each label stands, and the first of 8 and 9.
#![tactic(auto)]

ghost use Rattle.std.specs.Prelude.{◌≡◌, ◌≤◌, length};
ghost use Rattle.layout.specs.Read.{deepest, read_main};
ghost use Rattle.laws.specs.Fits.{Bytes};
ghost use Rattle.labels.specs.Table.{held};
ghost use Rattle.measure.specs.Walk.{SameNotes};
ghost use Rattle.editions.specs.Allowed.{read_by};
ghost use Rattle.bodies.specs.Ready.{LengthsKept};
ghost use Rattle.scan.specs.Mains.{Empty, MainScanned};

use bodies::scan_body;
use editions::MainBody;
use measure::Notes;
use positions::{ActionNumber, BytePosition, Cursor, DEEPEST, Fault, Halt, Walked};

// How many bytes these are. That each is under 256 is said here: no proof sees it through the struct that lends them.
#[tactic(auto, using(laws::proofs::Fits::all_bytes))]
fn byte_count(b: &[u8]) -> usize
    ensures { (result ≡ length b.now) × Bytes b.now }
{
    b.len()
}

// A whole main body: no byte of it is left over.
pub fn scan_main(m: &MainBody<'_>, notes: &mut Notes<'_, '_>) -> Walked
    requires { (length m.now.b.now ≤ 1048576) × Empty (read_by m.now) notes.old }
    ensures scanned { MainScanned notes.new (read_main (read_by m.now) m.now.b.now deepest) result }
    ensures bytes { Bytes m.now.b.now }
    ensures kept { LengthsKept (held notes.old.labels.now) (held notes.new.labels.now) }
    ensures same_references { SameNotes notes.old notes.new }
{
    let count = byte_count(m.b);
    let start = Cursor {
        at: 0,
        pos: BytePosition(0),
        number: ActionNumber(0),
    };
    let end = scan_body(m, start, DEEPEST, BytePosition(0), notes)?;
    if end.at < count {
        return Err(Halt {
            fault: Fault::LeftOver,
            place: end.at,
            number: end.number,
        });
    }
    Ok(end)
}
