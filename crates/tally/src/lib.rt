// The counts of a replay, and their printing.
#![tactic(auto)]

ghost use Rattle.std.specs.Prelude.{◌≡◌, ◌+◌, ◌<◌, ◌^◌, ◌-◌, min, true, false, Some, MatchOption, slice_index, slice_set, ◌++◌};
ghost use Rattle.tally.specs.Text.{number_lines, differ_line};

use std::fmt;

// How many answers have each number, how many of all differ, and the first of these.
#[derive(Default, Drop)]
pub struct Tally {
    pub numbers: [usize; 19],
    pub differ: usize,
    pub first: Option<usize>,
}

impl Tally {
    // Counts an answer by its number, and one that differs. `ordinal` counts the answers from 1. A list may hold a record with a
    // number that no answer has: 19 counts as one more that differs, and 20 moves the first that does on by one, so that a replay
    // prints of every list what it always did.
    pub fn count(&mut self, number: u8, agrees: bool, ordinal: usize)
        ensures numbers { self.new.numbers ≡ slice_set self.old.numbers number (min (slice_index self.old.numbers number + 1) (2 ^ 64 - 1)) }
        ensures agreed { number < 19 → agrees ≡ true → (self.new.differ ≡ self.old.differ) × (self.new.first ≡ self.old.first) }
        ensures differ { number < 19 → agrees ≡ false → self.new.differ ≡ min (self.old.differ + 1) (2 ^ 64 - 1) }
        ensures first { number < 19 → agrees ≡ false → MatchOption self.old.first (self.new.first ≡ Some ordinal) (λ first. self.new.first ≡ Some first) }
    {
        match number {
            0..=18 => {
                let count = &mut self.numbers[number as usize];
                *count = count.saturating_add(1);
            }
            19 => self.differ = self.differ.saturating_add(1),
            20 => self.first = Some(self.first.map_or(1, |first| first.saturating_add(1))),
            _ => {}
        }
        if !agrees {
            self.differ = self.differ.saturating_add(1);
            self.first = self.first.or(Some(ordinal));
        }
    }
}

// A line for each number that was met, with its count, and one for the answers that differ: how many, and the first, or 0.
impl fmt::Display for Tally {
    ghost output = { λ t. Some (number_lines t.numbers 19 ++ differ_line t.differ t.first) };

    #[tactic(auto, unfolding(crate::specs::Text::number_lines))]
    fn fmt<W: fmt::Write>(&self, f: &mut fmt::Formatter<W>) -> fmt::Result {
        for (number, count) in self.numbers.iter().enumerate() {
            if *count != 0 {
                writeln!(f, "{number} {count}")?;
            }
        }
        let differ = self.differ;
        let first = self.first.unwrap_or(0);
        writeln!(f, "differ {differ}, first {first}")
    }
}
