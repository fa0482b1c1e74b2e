// Steps through many blocks, and writes a line for each: the number of its answer, and the value. Standard input has each block's
// pattern after its length in four bytes.
#![tactic(auto)]

use patterns::{Patterns, unroll};
use std::io;
use std::io::{BufWriter, Read, Write};
use step::Unclean;

fn answer<W: Write>(block: &[u8], out: &mut W) -> io::Result<()> {
    let (number, value) = match step::step(block) {
        Ok(count) => (0, count),
        Err(Unclean { place }) => (13, place),
    };
    writeln!(out, "{number} {value}")
}

// A block is what its pattern stands for, as far as there is space; where the pattern is cut short, it is empty.
fn answer_all<W: Write>(input: &[u8], space: &mut [u8], out: &mut W) -> io::Result<()> {
    for pattern in Patterns(input) {
        let length = unroll(pattern.unwrap_or(&[]), space);
        answer(&space[..length], out)?;
    }
    Ok(())
}

// Of the input, 65,536 bytes are read.
fn main(rt: HostRuntime) -> io::Result<()> {
    let mut input = Vec::with_capacity(rt.alloc(), 65536)?;
    rt.stdin().take(65536).read_to_end(&mut input)?;
    let mut space = vec![in rt.alloc(); 0; 65536]?;
    let mut out = BufWriter::new(rt.alloc(), rt.stdout())?;
    answer_all(&input, &mut space, &mut out)?;
    out.flush()
}
