// The front of a body: its label entries and its action count, read and checked. Nothing of it is written.
#![tactic(auto)]

ghost use Rattle.std.specs.Prelude.{◌≡◌, ◌≤◌, length};
ghost use Rattle.std.proofs.Math.Option.{Option};
ghost use Rattle.layout.specs.Read.{Words, placed, read_entries};
ghost use Rattle.positions.specs.Scanned.{scanned};
ghost use Rattle.editions.specs.Allowed.{bounded};
ghost use Rattle.front.specs.Front.{read_front};

use editions::MainBody;
use operands::{after, read_u16, scan_bytes, stops, whole};
use positions::{Fault, Scan, Spot};

// n label entries: label numbers in range and strictly rising; whatever words the terms allow, here and below.
fn scan_entries(m: &MainBody<'_>, from: Spot, n: usize) -> Scan
    requires { from.at ≤ length m.now.b.now }
    ensures { (o : Option Words) → result ≡ scanned (λ _. 0) from.pos.0 (read_entries (bounded m.now.terms o) m.now.b.now n 0 (placed from.at)) }
{
    let mut at = from.at;
    let mut least = 0;
    for _ in 0..n {
        let label = read_u16(m, at)?;
        if label < least || m.terms.label_bound <= label {
            return stops(Fault::BadField, at);
        }
        whole(m, at + 2, 2)?;
        least = label + 1;
        at += 4;
    }
    Ok(Spot { at, ..from })
}

// A body's front: its label entries and its action count.
pub fn scan_front(m: &MainBody<'_>, from: Spot) -> Scan
    requires { from.at ≤ length m.now.b.now }
    ensures { (o : Option Words) → result ≡ scanned (λ _. 0) from.pos.0 (read_front (bounded m.now.terms o) m.now.b.now (placed from.at)) }
{
    let n = read_u16(m, from.at)?;
    let count = scan_entries(m, after(from, 2, 0), n)?;
    scan_bytes(m, count, 2)
}
