// The records of a list of the oracle's answers: whether packing a record's sheet gives number, value, action number and every byte
// of the output as it says.
//
// A record is the lengths of three patterns, the room, the mode, and the answer's number, value and action number, in 30 bytes; then
// the patterns of the sheet, of its book and of the block. A pattern that is cut short, and each behind it, is empty.
#![tactic(auto)]

ghost use Rattle.std.specs.Prelude.{◌≡◌, ◌+◌, ◌/◌, ◌<◌, ◌≤◌, IfOk, IsSome, IsTrue, MatchOption, length, take, vec_len};
ghost use Rattle.std.specs.Iterator.{at_most};
ghost use Rattle.replayed.specs.Heads.{TellsHead, TellsMode};

use answer::{Answer, action_of, number_of, value_of};
use fields::{u32_at, u64_at};
use judge::Mode;
use patterns::unroll;
use std::alloc::{AllocError, Global};

// What every byte of the output holds before a sheet is packed.
const FRESH: u8 = 0xA5;

// Two bytes more than the longest sheet has.
const SPACE: usize = 1048578;

// What the patterns of a record stand for, one record after the other, and the output that its sheet is packed into.
#[derive(Drop)]
pub struct Spaces {
    sheet: Vec<u8>,
    book: Vec<u8>,
    block: Vec<u8>,
    out: Vec<u8>,
}

// A space, filled with zeros.
fn space(alloc: Global) -> Result<Vec<u8>, AllocError>
    ensures { IfOk result (λ v. vec_len v ≡ 1048578) }
{
    vec![in alloc; 0; SPACE]
}

impl Spaces {
    pub fn new(alloc: Global) -> Result<Spaces, AllocError>
        ensures { IfOk result (λ s. (1048578 ≡ vec_len s.sheet) × (1048578 ≡ vec_len s.book) × (1048578 ≡ vec_len s.block) × (1048578 ≡ vec_len s.out)) }
    {
        Ok(Spaces {
            sheet: space(alloc)?,
            book: space(alloc)?,
            block: space(alloc)?,
            out: space(alloc)?,
        })
    }
}

// A record: its patterns, the room and the mode to pack in, and what the answer is to be.
#[derive(Clone, Copy)]
pub struct Record<'a> {
    sheet: &'a [u8],
    book: &'a [u8],
    block: &'a [u8],
    room: u32,
    mode: Option<Mode>,
    pub number: u8,
    value: u64,
    action: u32,
}

// The mode of a record's byte, which is 0 to 3: 1 more if it is strict, 2 more if it is contained. `Mode` is the judge's, so that no
// TryFrom can stand here.
fn mode_of(byte: u8) -> Option<Mode>
    ensures { TellsMode byte result }
{
    if 3 < byte {
        return None;
    }
    Some(Mode {
        strict: byte % 2 == 1,
        contained: 2 <= byte,
    })
}

// Whether the output starts with the block and is fresh behind it.
fn holds(out: &[u8], block: &[u8]) -> bool {
    match out.strip_prefix(block) {
        Some(rest) => rest.iter().all(|byte| *byte == FRESH),
        None => false,
    }
}

impl Record<'_> {
    // Whether this is the answer that the record tells.
    fn tells(&self, answer: Answer) -> bool {
        number_of(answer) == u32::from(self.number)
            && value_of(answer) == self.value
            && action_of(answer) == u64::from(self.action)
    }

    // Whether packing a sheet into an output gives what the record tells and this block, and leaves the bytes behind the room, of
    // which 64 are looked at.
    fn is_met(&self, sheet: &[u8], book: &[u8], block: &[u8], out: &mut [u8]) -> bool
        ensures mode { IsTrue result → IsSome self.now.mode }
        ensures room { IsTrue result → self.now.room + 64 ≤ length out.old }
    {
        let room = self.room as usize;
        let (Some(mode), Some(out)) = (self.mode, out.get_mut(..room + 64)) else {
            return false;
        };
        out.fill(FRESH);
        let answer = pack::pack(sheet, book, mode, &mut out[..room]);
        self.tells(answer) && holds(out, block)
    }

    // The same of the sheet, the book and the block that the record's patterns stand for, which are put into spaces of any lengths.
    pub fn agrees_in(
        &self,
        sheet: &mut [u8],
        book: &mut [u8],
        block: &mut [u8],
        out: &mut [u8],
    ) -> bool
        ensures mode { IsTrue result → IsSome self.now.mode }
        ensures room { IsTrue result → self.now.room + 64 ≤ length out.old }
    {
        let long = unroll(self.sheet, sheet);
        let thick = unroll(self.book, book);
        let wide = unroll(self.block, block);
        self.is_met(&sheet[..long], &book[..thick], &block[..wide], out)
    }

    // The same in the spaces of a replay.
    pub fn agrees(&self, spaces: &mut Spaces) -> bool
        ensures mode { IsTrue result → IsSome self.now.mode }
        ensures room { IsTrue result → self.now.room + 64 ≤ vec_len spaces.old.out }
        ensures kept { (vec_len spaces.new.sheet ≡ vec_len spaces.old.sheet) × (vec_len spaces.new.book ≡ vec_len spaces.old.book) × (vec_len spaces.new.block ≡ vec_len spaces.old.block) × (vec_len spaces.new.out ≡ vec_len spaces.old.out) }
    {
        self.agrees_in(
            &mut spaces.sheet,
            &mut spaces.book,
            &mut spaces.block,
            &mut spaces.out,
        )
    }
}

// The first n bytes and what stands behind them, or nothing and nothing where there are fewer.
fn split_pattern(bytes: &[u8], n: u32) -> (&[u8], &[u8])
    ensures { length result.1.now ≤ length bytes.now }
{
    bytes.split_at_checked(n as usize).unwrap_or((&[], &[]))
}

// The records of a list.
#[derive(Drop)]
pub struct Records<'a>(pub &'a [u8]);

impl<'a> Iterator for Records<'a> {
    type Item = Record<'a>;

    ghost next_gives = { λ s r t. MatchOption r (length s.0.now < 30) (λ x.
        (length t.0.now + 30 ≤ length s.0.now) × TellsHead (take 30 s.0.now) x.room x.mode) };

    ghost remaining = { λ s. at_most (length s.0.now / 30) };

    fn next(&mut self) -> Option<Record<'a>> {
        let (head, rest) = self.0.split_first_chunk::<30>()?;
        let (sheet, rest) = split_pattern(rest, u32_at(head, 0));
        let (book, rest) = split_pattern(rest, u32_at(head, 4));
        let (block, rest) = split_pattern(rest, u32_at(head, 8));
        self.0 = rest;
        Some(Record {
            sheet,
            book,
            block,
            room: u32_at(head, 12),
            mode: mode_of(head[16]),
            number: head[17],
            value: u64_at(head, 18),
            action: u32_at(head, 26),
        })
    }
}
