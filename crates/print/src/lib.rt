// The text that the block program prints, made at the front of a lent buffer.
#![tactic(auto)]

ghost use Rattle.std.specs.Prelude.{◌≡◌, ◌+◌, ◌≤◌, length, take, vec_len, IfOk, IfSome, OnOk};
ghost use Rattle.std.specs.Io.KnownBytes.{Appends};
ghost use Rattle.io.specs.Counts.{IsPrefixLen};
ghost use Rattle.layout.specs.Book.{empty_book};
ghost use Rattle.layout.specs.Judge.{plain_mode};
ghost use Rattle.layout.specs.Pack.{output, Outcome};
ghost use Rattle.answer.specs.Answered.{number, value, value_by, action};
ghost use Rattle.print_text.specs.Pieces.{signed, Room, Put};
ghost use Rattle.print.specs.Text.{line, answered, block_text};

use answer::{Answer, number_of, value_of};
use judge::Mode;
use print_text::{put_block, put_number, put_signed};
use std::alloc::{AllocError, Global};
use std::io;
use std::io::{Read, Write};
use stores::Store;

// The program reads into so many bytes, which an input fills that has as many or more; and packs into as many.
const SPACE: usize = 65536;

// The value that a number and its 64 bits tell; only that of 10, a distance, can be negative.
fn put_value(text: &mut [u8], at: usize, number: u32, bits: u64) -> usize
    requires { Room 21 at text.old }
    ensures { Put (signed (value_by number bits)) at text.old text.new result × (result ≤ at + 21) }
{
    if number == 10 {
        return put_signed(text, at, bits);
    }
    put_number(text, at, bits)
}

// The line of an answer with this number and these bits, at the front.
fn put_line(text: &mut [u8], number: u32, bits: u64) -> usize
    requires { Room 43 0 text.old }
    ensures { Put (line number (value_by number bits)) 0 text.old text.new result × (result ≤ 43) }
{
    let space = put_number(text, 0, number as u64);
    let at = b' '.store(text, space);
    let end = put_value(text, at, number, bits);
    b'\n'.store(text, end)
}

// Packs the input in plain mode, with the book that has no entry.
fn pack_input(input: &[u8], out: &mut [u8]) -> Answer
    ensures { Outcome plain_mode input.now empty_book out.old (number result) (value result) (action result) out.new }
{
    let book = [0, 0, 0, 0, 0, 0, 0x42, 0x31];
    let mode = Mode {
        strict: false,
        contained: false,
    };
    pack::pack(input, &book, mode, out)
}

// Packs the input into `out`, and makes the program's text at the front of `text`: three bytes for each byte of a
// block, and a line. An input that fills its 65,536 bytes is not packed: its line is that of 12. Returns the length of the text.
// The lengths are asked for and stand in no type, as `text` may be any buffer that is long enough; so it is below.
pub fn block_text(input: &[u8], out: &mut [u8], text: &mut [u8]) -> usize
    requires { (length input.now ≤ 65536) × (length out.old ≡ 65536) × Room 196651 0 text.old }
    ensures text { Put (block_text input.now) 0 text.old text.new result }
    ensures within { IsPrefixLen result text.new }
    ensures output { out.new ≡ output (answered input.now) out.old }
{
    if input.len() == SPACE {
        return put_line(text, 12, SPACE as u64);
    }
    let answer = pack_input(input, out);
    let end = put_line(text, number_of(answer), value_of(answer));
    match answer {
        Ok(len) => put_block(text, end, &out[..len]),
        Err(_) => end,
    }
}

// Three bytes for each byte of the longest block, and a line.
pub fn text_buffer(alloc: Global) -> Result<Vec<u8>, AllocError>
    ensures { IfOk result (λ v. 196651 ≡ vec_len v) }
{
    vec![in alloc; 0; 196651]
}

// Writes the program's text of the input, which it makes in `out` and `text`.
pub fn write_text<W: Write>(
    input: &[u8],
    out: &mut [u8],
    text: &mut [u8],
    writer: &mut W,
) -> io::Result<()>
    requires { (length input.now ≤ 65536) × (length out.old ≡ 65536) × Room 196651 0 text.old }
    ensures { OnOk result (Appends (W.contents writer.old) (W.contents writer.new) (block_text input.now)) }
{
    let end = block_text(input, out, text);
    writer.write_all(&text[..end])
}

// Reads 65,536 bytes, or as many as there are.
fn read_input<R: Read + Drop>(alloc: Global, reader: R) -> io::Result<Vec<u8>>
    ensures within { IfOk result (λ v. vec_len v ≤ 65536) }
    ensures bytes { IfOk result (λ v. IfSome (R.remaining reader) (λ xs. v.items ≡ take 65536 xs)) }
{
    let mut input = Vec::with_capacity(alloc, SPACE)?;
    reader.take(SPACE as u64).read_to_end(&mut input)?;
    input.truncate(SPACE);
    Ok(input)
}

// The block program: reads 65,536 bytes, or as many as there are, and writes their text.
pub fn answer_reader<R: Read + Drop, W: Write>(
    alloc: Global,
    reader: R,
    writer: &mut W,
) -> io::Result<()>
    ensures { OnOk result (IfSome (R.remaining reader) (λ xs. Appends (W.contents writer.old) (W.contents writer.new) (block_text (take 65536 xs)))) }
{
    let input = read_input(alloc, reader)?;
    let mut out = vec![in alloc; 0; SPACE]?;
    let mut text = text_buffer(alloc)?;
    write_text(&input, &mut out, &mut text, writer)
}
