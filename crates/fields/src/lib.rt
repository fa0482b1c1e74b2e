// Numbers and runs of bytes, read from slices. Numbers are little-endian. Each width has a function of one library call, to which a
// trait over the widths would add an impl each.
#![tactic(auto)]

ghost use Rattle.std.specs.Prelude.{◌≡◌, ℕ, ◌+◌, ◌<◌, ◌≤◌, ◌==◌, length, get_or, position};
ghost use Rattle.layout.specs.Numbers.{u16_at, u32_at, u64_at};
ghost use Rattle.fields.specs.Runs.{first_nul};

// The u16 at a place.
pub fn u16_at(b: &[u8], at: usize) -> usize
    requires { at + 2 ≤ length b.now }
    ensures { (result ≡ u16_at b.now at) × (result < 65536) }
{
    usize::from(u16::from_le_bytes([b[at], b[at + 1]]))
}

// The u32 at a place.
pub fn u32_at(b: &[u8], at: usize) -> u32
    requires { at + 4 ≤ length b.now }
    ensures { result ≡ u32_at b.now at }
{
    u32::from_le_bytes([b[at], b[at + 1], b[at + 2], b[at + 3]])
}

// The u64 at a place.
pub fn u64_at(b: &[u8], at: usize) -> u64
    requires { at + 8 ≤ length b.now }
    ensures { result ≡ u64_at b.now at }
{
    u64::from_le_bytes([
        b[at],
        b[at + 1],
        b[at + 2],
        b[at + 3],
        b[at + 4],
        b[at + 5],
        b[at + 6],
        b[at + 7],
    ])
}

// The least of the bytes, or 255. Each byte is read and values are only chosen, so that this is compiled to work on many bytes at
// a time; the library's `min` answers an Option, whose None would have to be told from a byte.
fn least_byte(part: &[u8]) -> u8
    ensures { (k : ℕ) → k < length part.now → result ≤ get_or part.now k 0 }
{
    let mut least = 255;
    for x in part {
        least = if *x < least { *x } else { least };
    }
    least
}

// The first zero byte.
fn first_zero(part: &[u8]) -> Option<usize>
    ensures { result ≡ position (λ x. x == 0) part.now }
{
    part.iter().position(|x| *x == 0)
}

// The place of the first zero byte among n from a place on, or the place after them. Most parts have none, which the least byte
// tells soonest. It is told where the part stands, and answers a place: its callers compare the place with the end, or tell it.
pub fn first_nul(b: &[u8], at: usize, n: usize) -> usize
    requires { at + n ≤ length b.now }
    ensures { result ≡ first_nul b.now at n }
{
    let part = &b[at..at + n];
    if least_byte(part) != 0 {
        return at + n;
    }
    at + first_zero(part).unwrap_or(n)
}
