// Patterns, which stand for long inputs. A pattern is runs: four bytes of a run's length, two of another length, and that many bytes,
// which fill the run again and again.
#![tactic(auto)]

ghost use Rattle.std.specs.Prelude.{length};
ghost use Rattle.std.specs.Iterator.{at_most};
ghost use Rattle.io.specs.Counts.{IsPrefixLen};

// A run, and the bytes that fill it again and again.
#[derive(Clone, Copy)]
struct Run<'a> {
    length: usize,
    bytes: &'a [u8],
}

// The runs of a pattern, as far as they are all there.
#[derive(Drop)]
struct Runs<'a>(&'a [u8]);

impl<'a> Iterator for Runs<'a> {
    type Item = Run<'a>;

    ghost remaining = { λ s. at_most (length s.0.now) };

    fn next(&mut self) -> Option<Run<'a>> {
        let (length, rest) = self.0.split_first_chunk::<4>()?;
        let (n, rest) = rest.split_first_chunk::<2>()?;
        let (bytes, rest) = rest.split_at_checked(usize::from(u16::from_le_bytes(*n)))?;
        self.0 = rest;
        Some(Run {
            length: u32::from_le_bytes(*length) as usize,
            bytes,
        })
    }
}

// Puts the bytes into the space, again and again.
fn fill_again(space: &mut [u8], bytes: &[u8]) {
    for (slot, byte) in space.iter_mut().zip(bytes.iter().cycle()) {
        *slot = *byte;
    }
}

// Puts what a pattern stands for at the front of the space, and returns its length, as far as there is space.
pub fn unroll(pattern: &[u8], space: &mut [u8]) -> usize
    ensures { IsPrefixLen result space.new }
{
    let mut at = 0;
    for run in Runs(pattern) {
        if space.len() - at < run.length {
            return at;
        }
        fill_again(&mut space[at..at + run.length], run.bytes);
        at += run.length;
    }
    at
}

// Patterns that stand one after the other, each after its length in four bytes. None stands for a last one that is cut short.
#[derive(Drop)]
pub struct Patterns<'a>(pub &'a [u8]);

impl<'a> Iterator for Patterns<'a> {
    type Item = Option<&'a [u8]>;

    ghost remaining = { λ s. at_most (length s.0.now) };

    fn next(&mut self) -> Option<Option<&'a [u8]>> {
        let (n, rest) = self.0.split_first_chunk::<4>()?;
        match rest.split_at_checked(u32::from_le_bytes(*n) as usize) {
            Some((pattern, rest)) => {
                self.0 = rest;
                Some(Some(pattern))
            }
            None => {
                self.0 = &[];
                Some(None)
            }
        }
    }
}
