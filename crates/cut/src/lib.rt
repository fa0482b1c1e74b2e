// The cut of a sheet into note, main body and trailer: answers 1 and 2.
#![tactic(auto)]

ghost use Rattle.std.specs.Prelude.{◌≡◌, false, MatchOption};
ghost use Rattle.layout.specs.Cut.{cut};
ghost use Rattle.cut.specs.Trailers.{is_trailed, Trailed};
ghost use Rattle.cut.specs.Cuts.{Coded, said, Within};

use editions::Edition;
use fields::{u16_at, u32_at};

// The length of the longest sheet.
const SHEET_LIMIT: usize = 1048576;

// What the eight bytes at the end of a sheet or of a book say: the part before them that they point back to, where it starts, and
// a number, which is a sheet's edition or a book's entry count.
#[derive(Clone, Copy)]
pub struct Trailer<'a> {
    pub start: usize,
    pub part: &'a [u8],
    pub code: u16,
}

// The main body of a sheet, with the sheet's edition, and where it starts in the sheet.
#[derive(Clone, Copy)]
pub struct Cut<'a> {
    pub edition: Edition,
    pub start: usize,
    pub main: &'a [u8],
}

// Why a sheet has no main body: its length is over the limit, or its trailer is none.
#[derive(Clone, Copy)]
pub enum CutError {
    SheetTooLong(usize),
    BadTrailer,
}

// The trailer at the end of these bytes, where its two last bytes are this mark and 0x31.
pub fn trailer_of(bytes: &[u8], mark: u8) -> Option<Trailer<'_>>
    ensures { MatchOption result (is_trailed mark bytes.now ≡ false) (λ t. Trailed mark bytes.now t) }
{
    let end = bytes.len().checked_sub(8)?;
    if bytes[end + 6] != mark || bytes[end + 7] != 0x31 {
        return None;
    }
    let distance = u32_at(bytes, end) as usize;
    let start = end.checked_sub(distance)?;
    Some(Trailer {
        start,
        part: &bytes[start..end],
        code: u16_at(bytes, end + 4) as u16,
    })
}

// The edition that a trailer names. A TryFrom would need an error of its own, which the caller drops at once.
#[tactic(auto, unfolding(layout::specs::Cut::edition_of, layout::specs::Cut::editions, layout::specs::Cut::edition_number, layout::specs::Lists::first_with, layout::specs::Lists::pick, editions::specs::Allowed::meant))]
fn edition_of(code: u16) -> Option<Edition>
    ensures { Coded code result }
{
    match code {
        1 => Some(Edition::First),
        2 => Some(Edition::Second),
        3 => Some(Edition::Third),
        _ => None,
    }
}

// The main body of a sheet, by its trailer.
pub fn cut_main(sheet: &[u8]) -> Result<Cut<'_>, CutError>
    ensures is_cut { said result ≡ cut sheet.now }
    ensures within { Within sheet.now result }
{
    if SHEET_LIMIT < sheet.len() {
        return Err(CutError::SheetTooLong(sheet.len()));
    }
    let t = trailer_of(sheet, 0x41).ok_or(CutError::BadTrailer)?;
    let edition = edition_of(t.code).ok_or(CutError::BadTrailer)?;
    Ok(Cut {
        edition,
        start: t.start,
        main: t.part,
    })
}
