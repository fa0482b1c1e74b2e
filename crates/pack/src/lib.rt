// The packer: a sheet's block in the lent output, or one of 1 to 11 and 18 and, by the mode, 14 and 15. Editions 1 and 2 do not look
// at the book.
#![tactic(auto)]

ghost use Rattle.std.specs.Prelude.{◌≡◌, ◌≤◌, ◌<◌, true};
ghost use Rattle.layout.specs.Cut.{Third};
ghost use Rattle.layout.specs.Pack.{Outcome, block_in};
ghost use Rattle.answer.specs.Answered.{number, value, action};
ghost use Rattle.editions.specs.Allowed.{read_by};
ghost use Rattle.if_room.specs.Near.{MainNear, MainAnswered};
ghost use Rattle.scan.specs.Mains.{Empty};
ghost use Rattle.judge.specs.Judging.{mode_of, HomesLent, MainJudgeable, MainJudged};
ghost use Rattle.pack.specs.Steps.{Limited, ReadPacked, EditionPacked, EarlyPacked, EnoughEarly};

use answer::{Answer, Refusal};
use book::check_book;
use cut::{Cut, cut_main};
use editions::{Edition, FIRST_LABELS, MainBody, SECOND_LABELS};
use if_room::pack_near;
use judge::{Mode, Refused, judge_main};
use labels::Tables;
use measure::Notes;
use positions::BytePosition;
use reading::read_main;

// Judges by the tables that a walk noted, each lent as a shared slice. It has a call of its own, since both cannot be lent so from
// within the notes.
fn judge_noted(
    m: &MainBody<'_>,
    end: BytePosition,
    mode: Mode,
    labels: &Tables<'_>,
) -> Result<(), Refused>
    requires { MainJudgeable (read_by m.now) m.now.b.now end (mode_of mode) labels.now.tab.now labels.now.homes.now }
    ensures { MainJudged (read_by m.now) (mode_of mode) m.now.b.now result }
{
    judge_main(m, end, mode, labels.tab, labels.homes)
}

// Writes by the table that a walk noted, which is lent in the same way.
fn pack_noted(m: &MainBody<'_>, end: BytePosition, labels: &Tables<'_>, out: &mut [u8]) -> Answer
    requires { MainNear (read_by m.now) m.now.b.now end labels.now.tab.now }
    ensures { MainAnswered (read_by m.now) block_in m.now.b.now out.old result out.new }
{
    pack_near(m, end, labels.tab, out)
}

// A main body that starts at `start` in its sheet: 3 to 7 where reading stops, else 8 or 9 where it noted one, else 10, 14 or 15
// where a branch is refused, else 11 or 0.
fn pack_main(
    m: &MainBody<'_>,
    start: usize,
    mode: Mode,
    notes: &mut Notes<'_, '_>,
    out: &mut [u8],
) -> Answer
    requires limited { Limited m.now.b.now start }
    requires empty { Empty (read_by m.now) notes.old }
    requires lent { HomesLent (read_by m.now) (mode_of mode) notes.old.labels.now.homes.now }
    ensures { ReadPacked (read_by m.now) (mode_of mode) start m.now.b.now out.old result out.new }
{
    let end = read_main(m, start, notes)?;
    if let Some(over) = notes.over {
        return Err(Refusal::from(over));
    }
    judge_noted(m, end, mode, &*notes.labels)?;
    pack_noted(m, end, &*notes.labels, out)
}

// The same, with tables of so many slots.
// It keeps a frame of its own, so that no sheet pays in stack for the tables of another edition.
#[inline(never)]
fn pack_in<const LABELS: usize, const HOMES: usize>(
    m: &MainBody<'_>,
    start: usize,
    mode: Mode,
    out: &mut [u8],
) -> Answer
    requires limited { Limited m.now.b.now start }
    requires slots { m.now.terms.label_bound ≤ LABELS }
    requires homes { mode.contained ≡ true → m.now.terms.label_bound ≤ HOMES }
    requires sizes { (LABELS ≤ 4096) × (HOMES ≤ 4096) }
    ensures { ReadPacked (read_by m.now) (mode_of mode) start m.now.b.now out.old result out.new }
{
    let mut tab = [0; LABELS];
    let mut homes = [0; HOMES];
    let mut labels = Tables {
        tab: &mut tab,
        homes: &mut homes,
    };
    let mut notes = Notes {
        labels: &mut labels,
        over: None,
    };
    pack_main(m, start, mode, &mut notes, out)
}

// The same, with tables for so many label numbers. Only in a contained mode has the table of homes any slot, and takes time to clear.
fn pack_by<const LABELS: usize>(
    m: &MainBody<'_>,
    start: usize,
    mode: Mode,
    out: &mut [u8],
) -> Answer
    requires limited { Limited m.now.b.now start }
    requires slots { m.now.terms.label_bound ≤ LABELS }
    requires size { LABELS ≤ 4096 }
    ensures { ReadPacked (read_by m.now) (mode_of mode) start m.now.b.now out.old result out.new }
{
    if mode.contained {
        pack_in::<LABELS, LABELS>(m, start, mode, out)
    } else {
        pack_in::<LABELS, 0>(m, start, mode, out)
    }
}

// The main body of a sheet of edition 1 or 2, whichever book is lent.
fn pack_early<const LABELS: usize>(cut: &Cut<'_>, mode: Mode, out: &mut [u8]) -> Answer
    requires limited { Limited cut.now.main.now cut.now.start }
    requires enough { EnoughEarly cut.now.edition LABELS }
    requires size { LABELS ≤ 4096 }
    ensures { EarlyPacked cut.now.edition (mode_of mode) cut.now.start cut.now.main.now out.old result out.new }
{
    let m = MainBody {
        b: cut.main,
        words: &[],
        index: &[],
        terms: cut.edition.terms(0),
    };
    pack_by::<LABELS>(&m, cut.start, mode, out)
}

// The main body of a sheet of edition 3: 18 comes before all that is read of it.
// It keeps a frame of its own, for the index.
#[inline(never)]
fn pack_third(cut: &Cut<'_>, book: &[u8], mode: Mode, out: &mut [u8]) -> Answer
    requires limited { Limited cut.now.main.now cut.now.start }
    requires third { cut.now.edition ≡ Edition.Third }
    ensures { EditionPacked Third book.now (mode_of mode) cut.now.start cut.now.main.now out.old result out.new }
{
    let mut index = [0; 4096];
    let book = check_book(book, &mut index).ok_or(Refusal::BadBook)?;
    let m = MainBody {
        b: cut.main,
        words: book.words,
        index: &index,
        terms: cut.edition.terms(book.count),
    };
    pack_by::<SECOND_LABELS>(&m, cut.start, mode, out)
}

// Packs a sheet, whose strings may name the words of a book, into the lent output, whose bytes past a Done length keep their values.
// The tables that are lent are as long as its edition's bound, so that no sheet clears more slots than it can name.
pub fn pack(sheet: &[u8], book: &[u8], mode: Mode, out: &mut [u8]) -> Answer
    ensures { Outcome (mode_of mode) sheet.now book.now out.old (number result) (value result) (action result) out.new }
{
    let cut = cut_main(sheet)?;
    match cut.edition {
        Edition::First => pack_early::<FIRST_LABELS>(&cut, mode, out),
        Edition::Second => pack_early::<SECOND_LABELS>(&cut, mode, out),
        Edition::Third => pack_third(&cut, book, mode, out),
    }
}
