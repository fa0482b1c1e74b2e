// Reads sheets from standard input, each with its book and four bytes of room behind it; the lengths of sheet and book stand before
// them in four bytes. Writes a line for each sheet: the number of its reading, the value and the action number.
#![tactic(auto)]

ghost use Rattle.std.specs.Prelude.{◌+◌, ◌<◌, ◌≤◌, length, IfSome};

use answer::Refusal;
use book::check_book;
use cut::{Cut, cut_main};
use editions::{Edition, MainBody, SECOND_LABELS};
use labels::Tables;
use measure::Notes;
use reading::read_main;
use std::io;
use std::io::{BufWriter, Read, Write};

// A main body that starts at a place in its sheet. The table has slots for the label numbers of every edition.
fn read_body(m: &MainBody<'_>, start: usize) -> Result<(), Refusal>
    requires { (length m.now.b.now ≤ 1048576) × (start ≤ 1048576) × (m.now.terms.label_bound ≤ 4096) }
{
    let mut tab = [0; SECOND_LABELS];
    let mut homes = [0; 0];
    let mut labels = Tables {
        tab: &mut tab,
        homes: &mut homes,
    };
    let mut notes = Notes {
        labels: &mut labels,
        over: None,
    };
    read_main(m, start, &mut notes)?;
    Ok(())
}

// The main body of a sheet of edition 3. The index is cleared for such a sheet alone.
fn read_third(cut: &Cut<'_>, book: &[u8]) -> Result<(), Refusal>
    requires { (length cut.now.main.now ≤ 1048576) × (cut.now.start ≤ 1048576) }
{
    let mut index = [0; 4096];
    let book = check_book(book, &mut index).ok_or(Refusal::BadBook)?;
    let m = MainBody {
        b: cut.main,
        words: book.words,
        index: &index,
        terms: cut.edition.terms(book.count),
    };
    read_body(&m, cut.start)
}

// The main body of a sheet of edition 1 or 2.
fn read_early(cut: &Cut<'_>) -> Result<(), Refusal>
    requires { (length cut.now.main.now ≤ 1048576) × (cut.now.start ≤ 1048576) }
{
    let m = MainBody {
        b: cut.main,
        words: &[],
        index: &[],
        terms: cut.edition.terms(0),
    };
    read_body(&m, cut.start)
}

// A sheet, with its book: it is looked at in edition 3 alone.
fn read_sheet(sheet: &[u8], book: &[u8]) -> Result<(), Refusal> {
    let cut = cut_main(sheet)?;
    match cut.edition {
        Edition::Third => read_third(&cut, book),
        _ => read_early(&cut),
    }
}

fn write_line<W: Write>(out: &mut W, read: Result<(), Refusal>) -> io::Result<()> {
    match read {
        Ok(()) => writeln!(out, "0 0 0"),
        Err(r) => writeln!(out, "{} {} {}", r.number(), r.value(), r.action()),
    }
}

// The bytes whose length stands before them, and what follows them.
fn counted(bytes: &[u8]) -> Option<(&[u8], &[u8])>
    ensures { IfSome result (λ r. length r.1.now + 4 ≤ length bytes.now) }
{
    let (len, tail) = bytes.split_first_chunk::<4>()?;
    tail.split_at_checked(u32::from_le_bytes(*len) as usize)
}

// A sheet and its book, and what follows the room behind them.
fn next_sheet(input: &[u8]) -> Option<(&[u8], &[u8], &[u8])>
    ensures { IfSome result (λ r. length r.2.now < length input.now) }
{
    let (sheet, tail) = counted(input)?;
    let (book, tail) = counted(tail)?;
    let (_, rest) = tail.split_at_checked(4)?;
    Some((sheet, book, rest))
}

fn answer_all<W: Write>(input: &[u8], out: &mut W) -> io::Result<()> {
    let mut rest = input;
    while let Some((sheet, book, after)) = next_sheet(rest) {
        write_line(out, read_sheet(sheet, book))?;
        rest = after;
    }
    Ok(())
}

// Of the list, 524,288 bytes are read.
fn main(rt: HostRuntime) -> io::Result<()> {
    let mut input = Vec::with_capacity(rt.alloc(), 524288)?;
    rt.stdin().take(524288).read_to_end(&mut input)?;
    let mut out = BufWriter::new(rt.alloc(), rt.stdout())?;
    answer_all(&input, &mut out)?;
    out.flush()
}
