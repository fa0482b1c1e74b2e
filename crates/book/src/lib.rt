// The check of a word book, 18, and the index of its words, which is made in the same pass.
#![tactic(auto)]

ghost use Rattle.std.specs.Prelude.{◌≡◌, ◌≤◌, ◌<◌, length};
ghost use Rattle.book.specs.Checks.{Entered, EnteredAll, Indexed, BookChecked};

use cut::trailer_of;
use fields::{first_nul, u16_at};
use words::step_of;

// A well-formed book: the bytes of its entries, and how many there are.
#[derive(Clone, Copy)]
pub struct Book<'a> {
    pub words: &'a [u8],
    pub count: u16,
}

// The place after the entry at a place: its length and its bytes, none zero. The zero byte is told by how many bytes stand before it:
// so the compiler sees that an entry without one needs no more than the test of its least byte.
fn after_entry(words: &[u8], at: usize) -> Option<usize>
    requires { (at ≤ length words.now) × (length words.now < 4294967296) }
    ensures { Entered words.now at result }
{
    let start = at + 2;
    if words.len() < start {
        return None;
    }
    let n = u16_at(words, at);
    let end = start + n;
    if words.len() < end || first_nul(words, start, n) - start < n {
        return None;
    }
    Some(end)
}

// The place after n entries from a place on.
fn after_entries(words: &[u8], at: usize, n: usize) -> Option<usize>
    requires { (at ≤ length words.now) × (length words.now < 4294967296) }
    ensures { EnteredAll words.now at n result }
{
    let mut p = at;
    for _ in 0..n {
        p = after_entry(words, p)?;
    }
    Some(p)
}

// Makes the index of so many entries, of which nothing may be left over: of every word, or of every second, fourth, eighth or
// sixteenth, the place is put into it. The slot is counted, so that no place takes a division.
fn index_words(words: &[u8], count: usize, index: &mut [u32]) -> Option<()>
    requires { (length words.now < 4294967296) × (count < 65536) × (4096 ≤ length index.old) }
    ensures { Indexed words.now count index.new result }
{
    let step = step_of(count);
    let mut slot = 0;
    let mut p = 0;
    for i in (0..count).step_by(step) {
        index[slot] = p as u32;
        p = after_entries(words, p, step.min(count - i))?;
        slot += 1;
    }
    (p == words.len()).then_some(())
}

// Checks a book, and makes the index of its words: 4,096 places do for any count.
pub fn check_book<'a>(book: &'a [u8], index: &mut [u32]) -> Option<Book<'a>>
    requires { 4096 ≤ length index.old }
    ensures { BookChecked book.now index.new result }
{
    let t = trailer_of(book, 0x42)?;
    index_words(t.part, t.code as usize, index)?;
    Some(Book {
        words: t.part,
        count: t.code,
    })
}
