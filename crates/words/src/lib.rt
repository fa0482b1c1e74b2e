// The words of a book, looked up by their numbers: `words` are the bytes of its entries, and `index` holds the places of every word,
// or of every second, fourth, eighth or sixteenth. A string is handed back as the part of the sheet or of the book that holds it.
#![tactic(auto)]

ghost use Rattle.std.specs.Prelude.{◌≡◌, ◌+◌, ◌*◌, ◌/◌, ◌%◌, ◌≤◌, ◌<◌, cond, length, get_or};
ghost use Rattle.fields.specs.Runs.{part};
ghost use Rattle.editions.specs.Words.{step_of, length_at, place_after, place_of};
ghost use Rattle.words.specs.Found.{Found};

use editions::MainBody;
use fields::u16_at;

// Where the bytes of a word stand.
#[derive(Clone, Copy)]
pub struct Word {
    pub at: usize,
    pub len: usize,
}

// How many words stand from one place of the index to the next, where there are so many.
pub fn step_of(count: usize) -> usize
    ensures { (result ≡ step_of count) × (0 < result) × (result ≤ 16) }
{
    if count <= 4096 {
        return 1;
    }
    if count <= 8192 {
        return 2;
    }
    if count <= 16384 {
        return 4;
    }
    if count <= 32768 {
        return 8;
    }
    16
}

// The length that stands at a place, or 0 where none does: a lookup is total, so that nothing is asked of an index, and a word that
// does not stand whole is empty.
fn length_at(words: &[u8], at: usize) -> usize
    requires { at ≤ 1099511627776 }
    ensures { (result ≡ length_at words.now at) × (result < 65536) }
{
    if words.len() < at + 2 {
        return 0;
    }
    u16_at(words, at)
}

// The place after n words from a place on.
fn place_after(words: &[u8], at: usize, n: usize) -> usize
    requires { (at < 4294967296) × (n ≤ 16) }
    ensures { (result ≡ place_after words.now n at) × (result ≤ at + 65537 * n) }
{
    let mut p = at;
    for _ in 0..n {
        p = p + 2 + length_at(words, p);
    }
    p
}

// The place of word i, where the index has the place of every word whose number is a multiple of `step`: from the last such place
// that is not behind the word, over the words between.
fn place_by(words: &[u8], index: &[u32], step: usize, i: usize) -> usize
    requires { (0 < step) × (step ≤ 16) }
    ensures { (result ≡ place_after words.now (i % step) (get_or index.now (i / step) 0)) × (result < 8589934592) }
{
    let start = index.get(i / step).map_or(0, |place| *place as usize);
    place_after(words, start, i % step)
}

// The place of word i of so many. Each step is written as a number, so that dividing by it takes no division.
fn place_of(words: &[u8], index: &[u32], count: usize, i: usize) -> usize
    ensures { (result ≡ place_of words.now index.now count i) × (result < 8589934592) }
{
    if count <= 4096 {
        return place_by(words, index, 1, i);
    }
    if count <= 8192 {
        return place_by(words, index, 2, i);
    }
    if count <= 16384 {
        return place_by(words, index, 4, i);
    }
    if count <= 32768 {
        return place_by(words, index, 8, i);
    }
    place_by(words, index, 16, i)
}

// Word i of so many. One that does not stand whole is empty, so that nothing is asked of the index.
pub fn word_at(m: &MainBody<'_>, count: usize, i: usize) -> Word
    ensures { Found m.now.words.now m.now.index.now count i result }
{
    let p = place_of(m.words, m.index, count, i);
    let n = length_at(m.words, p);
    let start = p + 2;
    if m.words.len() < start + n {
        return Word { at: 0, len: 0 };
    }
    Word { at: start, len: n }
}

// A string, as the part of the main body or of the words that holds it.
pub fn text_of<'a>(m: &MainBody<'a>, from_book: bool, at: usize, len: usize) -> &'a [u8]
    requires { at + len ≤ length (cond from_book m.now.words.now m.now.b.now) }
    ensures { result.now ≡ part (cond from_book m.now.words.now m.now.b.now) at len }
{
    if from_book {
        &m.words[at..at + len]
    } else {
        &m.b[at..at + len]
    }
}
