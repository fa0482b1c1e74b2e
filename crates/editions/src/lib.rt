// The editions of a sheet, and what each allows.
#![tactic(auto)]

ghost use Rattle.std.specs.Prelude.{◌≡◌};
ghost use Rattle.editions.specs.Allowed.{reading_by, Allows};

// The edition that a trailer names.
#[derive(Clone, Copy)]
pub enum Edition {
    First,
    Second,
    Third,
}

// What a main body is read by: label numbers under a bound, and how many words its strings may name, where they may.
#[derive(Clone, Copy)]
pub struct Terms {
    pub label_bound: usize,
    pub word_count: Option<u16>,
}

// A main body and what it is read by: `words` are the bytes of a book's entries, and `index` holds the places of some. Without a
// word count neither is looked at.
#[derive(Clone, Copy)]
pub struct MainBody<'a> {
    pub b: &'a [u8],
    pub words: &'a [u8],
    pub index: &'a [u32],
    pub terms: Terms,
}

// How many label numbers each edition has: 0 to 1,023, and 0 to 4,095 from edition 2 on.
pub const FIRST_LABELS: usize = 1024;

pub const SECOND_LABELS: usize = 4096;

fn reading_by(label_bound: usize, word_count: Option<u16>) -> Terms
    ensures { result ≡ reading_by label_bound word_count }
{
    Terms {
        label_bound,
        word_count,
    }
}

impl Edition {
    // The terms of an edition. Only edition 3 knows a book, which has so many words.
    pub fn terms(self, count: u16) -> Terms
        ensures { Allows self count result }
    {
        match self {
            Edition::First => reading_by(FIRST_LABELS, None),
            Edition::Second => reading_by(SECOND_LABELS, None),
            Edition::Third => reading_by(SECOND_LABELS, Some(count)),
        }
    }
}
