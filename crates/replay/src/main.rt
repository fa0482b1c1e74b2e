// Replays the oracle's answers: packs each sheet of a list, and holds number, value, action number and every byte of the output to
// what the list says. Writes a line for each number that was met, with its count, and then how many answers differ and the first
// that does.
#![tactic(auto)]

use replayed::{Records, Spaces};
use std::io;
use std::io::Read;
use tally::Tally;

// Of the list, 3,145,728 bytes are read.
fn main(rt: HostRuntime) -> io::Result<()> {
    let mut input = Vec::with_capacity(rt.alloc(), 3145728)?;
    rt.stdin().take(3145728).read_to_end(&mut input)?;
    let mut spaces = Spaces::new(rt.alloc())?;
    let mut tally = Tally::default();
    for (i, record) in Records(&input).enumerate() {
        let agrees = record.agrees(&mut spaces);
        tally.count(record.number, agrees, i + 1);
    }
    print!(rt; "{tally}")
}
