// The block program on many inputs: writes the text of each, one after the other. Standard input has each input's pattern after
// its length in four bytes.
#![tactic(auto)]

ghost use Rattle.std.specs.Prelude.{◌≡◌, length};
ghost use Rattle.print_text.specs.Pieces.{Room};

use patterns::{Patterns, unroll};
use print::{text_buffer, write_text};
use std::io;
use std::io::{BufWriter, Read, Write};

// An input is what its pattern stands for, as far as there is space.
fn answer_all<W: Write>(
    input: &[u8],
    space: &mut [u8],
    out: &mut [u8],
    text: &mut [u8],
    writer: &mut W,
) -> io::Result<()>
    requires { (length space.old ≡ 65536) × (length out.old ≡ 65536) × Room 196651 0 text.old }
{
    for pattern in Patterns(input) {
        let Some(pattern) = pattern else {
            return Ok(());
        };
        let length = unroll(pattern, space);
        write_text(&space[..length], out, text, writer)?;
    }
    Ok(())
}

// Of the input, 65,536 bytes are read.
fn main(rt: HostRuntime) -> io::Result<()> {
    let mut input = Vec::with_capacity(rt.alloc(), 65536)?;
    rt.stdin().take(65536).read_to_end(&mut input)?;
    let mut space = vec![in rt.alloc(); 0; 65536]?;
    let mut out = vec![in rt.alloc(); 0; 65536]?;
    let mut text = text_buffer(rt.alloc())?;
    let mut writer = BufWriter::new(rt.alloc(), rt.stdout())?;
    answer_all(&input, &mut space, &mut out, &mut text, &mut writer)?;
    writer.flush()
}
