// Labels: one table for the block, lent. It holds position + 1 for each label number, or 0 where none is recorded. Where the mode is
// contained a second one is lent, else an empty slice: it holds the home of each record, the position at which the function body
// starts that the record was made in.
#![tactic(auto)]

ghost use Rattle.std.specs.Prelude.{◌≡◌, ◌+◌, ◌*◌, ◌/◌, ◌%◌, ◌<◌, ◌≤◌, length, set};
ghost use Rattle.layout.specs.Numbers.{bits64};
ghost use Rattle.layout.specs.Judge.{distance};
ghost use Rattle.labels.specs.Table.{record_at, record_in, is_recorded, is_at_home, held, SameTables, entries_in, due, entry_of, index_of, position_of, Recordable, Recorded, is_far};

use fields::u32_at;
use positions::{ActionIndex, BytePosition};

// Both tables. A slot is a number and no Option, and the homes are a table of their own: the records have to fit in 64 KiB, and a tiny
// sheet's call, which is nearly all clearing, takes 1.95 times the instructions where twice as much is cleared.
#[derive(Drop)]
pub struct Tables<'a> {
    pub tab: &'a mut [usize],
    pub homes: &'a mut [usize],
}

// A label entry of a body, its four bytes as one number: label + 65536 * index. Entries in the order of these numbers are in the order
// in which they are recorded, and no two of a body are equal.
#[derive(Clone, Copy)]
pub struct EntryNumber(pub u32);

impl EntryNumber {
    fn label(self) -> usize
        ensures { result ≡ self.0 % 65536 }
    {
        (self.0 % 65536) as usize
    }

    // The index of the action that the label stands before.
    fn index(self) -> u32
        ensures { result ≡ self.0 / 65536 }
    {
        self.0 / 65536
    }
}

// The least entry at or above `from`. The loop always runs to its end and only chooses numbers, so that it is compiled to work on
// several entries at a time; in it 4294967295 stands for no entry, since no label number is 65535: an Option is two numbers to choose.
pub fn due_entry(entries: &[u8], from: u32) -> Option<EntryNumber>
    ensures { result ≡ entry_of (due (entries_in entries.now) from) }
{
    let mut least = 4294967295;
    for entry in entries.chunks_exact(4) {
        let number = u32_at(entry, 0);
        let counted = if number < from { 4294967295 } else { number };
        least = counted.min(least);
    }
    if least == 4294967295 {
        return None;
    }
    Some(EntryNumber(least))
}

// Records a label's home, where a table of homes is lent.
fn record_home(homes: &mut [usize], label: usize, home: BytePosition)
    ensures { homes.new ≡ set homes.old label home.0 }
{
    if homes.len() <= label {
        return;
    }
    homes[label] = home.0;
}

// Records the entries with index i, of which `first` is the first due; answers the first that is due later.
fn record_each(
    entries: &[u8],
    first: Option<EntryNumber>,
    i: ActionIndex,
    pos: BytePosition,
    home: BytePosition,
    tables: &mut Tables<'_>,
) -> Option<EntryNumber>
    requires { Recordable (entries_in entries.now) first (index_of i) (position_of pos home) tables.old.tab.now }
    ensures recorded { Recorded (entries_in entries.now) (index_of i) (position_of pos home) (held tables.old) (held tables.new) result }
    ensures same_references { SameTables tables.old tables.new }
{
    let mut next = first;
    while let Some(entry) = next {
        if entry.index() != i.0 {
            return next;
        }
        let label = entry.label();
        tables.tab[label] = pos.0 + 1;
        record_home(tables.homes, label, home);
        next = due_entry(entries, entry.0 + 1);
    }
    next
}

// The same, with the test before the call: most actions have no label.
pub fn record_labels(
    entries: &[u8],
    first: Option<EntryNumber>,
    i: ActionIndex,
    pos: BytePosition,
    home: BytePosition,
    tables: &mut Tables<'_>,
) -> Option<EntryNumber>
    requires { Recordable (entries_in entries.now) first (index_of i) (position_of pos home) tables.old.tab.now }
    ensures recorded { Recorded (entries_in entries.now) (index_of i) (position_of pos home) (held tables.old) (held tables.new) result }
    ensures same_references { SameTables tables.old tables.new }
{
    match first {
        Some(entry) if entry.index() == i.0 => record_each(entries, first, i, pos, home, tables),
        _ => first,
    }
}

// Whether a label is recorded. What only reads a table asks for a shared slice, not for `Tables`, which lends it to be changed.
pub fn is_recorded(tab: &[usize], label: usize) -> bool
    requires { label < length tab.now }
    ensures { result ≡ is_recorded (record_at tab.now label) }
{
    tab[label] != 0
}

// Whether a label's record, if it has one, was made in the function body that starts at `home`.
pub fn is_at_home(tab: &[usize], homes: &[usize], label: usize, home: BytePosition) -> bool
    requires { (label < length tab.now) × (label < length homes.now) }
    ensures { result ≡ is_at_home home.0 (record_in tab.now homes.now label) }
{
    if !is_recorded(tab, label) {
        return true;
    }
    homes[label] == home.0
}

// The 64 bits of a branch's distance, from the position after its operand to its label's record; 0 without one, as in the Rust
// and in the definition of this name.
pub fn distance(tab: &[usize], label: usize, after: BytePosition) -> u64
    requires { label < length tab.now }
    ensures { result ≡ bits64 (distance (record_at tab.now label) after.0) }
{
    let slot = tab[label] as u64;
    if slot == 0 {
        return 0;
    }
    (slot - 1).wrapping_sub(after.0 as u64)
}

// Whether a distance of these bits is outside -32,768 to 32,767.
#[tactic(auto, unfolding(crate::specs::Table::is_far))]
pub fn is_far(bits: u64) -> bool
    ensures { result ≡ is_far bits }
{
    32767 < bits && bits < 18446744073709518848
}
