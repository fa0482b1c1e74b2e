// Values, written into slices as runs of bytes; every other byte keeps its value. Numbers are little-endian.
#![tactic(auto)]

ghost use Rattle.std.specs.Prelude.{◌≡◌, ℕ, List, [], ◌∷◌, ◌++◌, ◌+◌, ◌≤◌, length};
ghost use Rattle.std.proofs.lemmas.List.Edits.{sets};
ghost use Rattle.layout.specs.Numbers.{le16, le32, le64};
ghost use Rattle.layout.specs.Payload.{zero_ended, double_bytes};

// A value that is written as a run of bytes.
pub trait Store {
    ghost bytes: { Self → List ℕ };

    // Its bytes from a place on. Answers the place after them.
    fn store(self, out: &mut [u8], at: usize) -> usize
        requires { at + length (bytes self) ≤ length out.old }
        ensures end { result ≡ at + length (bytes self) }
        ensures wrote { out.new ≡ sets out.old at (bytes self) };
}

// One byte.
impl Store for u8 {
    ghost bytes = { λ v. v ∷ [] };

    fn store(self, out: &mut [u8], at: usize) -> usize {
        out[at] = self;
        at + 1
    }
}

// The low sixteen bits of a number.
#[derive(Clone, Copy)]
pub struct Low16(pub usize);

impl Store for Low16 {
    ghost bytes = { λ v. le16 v.0 };

    fn store(self, out: &mut [u8], at: usize) -> usize {
        let [low, high] = ((self.0 % 65536) as u16).to_le_bytes();
        out[at] = low;
        out[at + 1] = high;
        at + 2
    }
}

// One value, and the other behind it.
impl<A: Store, B: Store> Store for (A, B) {
    ghost bytes = { λ v. A.bytes v.0 ++ B.bytes v.1 };

    fn store(self, out: &mut [u8], at: usize) -> usize {
        let (first, second) = self;
        let behind = first.store(out, at);
        second.store(out, behind)
    }
}

// A u32: its low half, then its high half.
impl Store for u32 {
    ghost bytes = { le32 };

    fn store(self, out: &mut [u8], at: usize) -> usize {
        let low = Low16((self % 65536) as usize);
        let high = Low16((self / 65536) as usize);
        (low, high).store(out, at)
    }
}

// A u64: its low half, then its high half.
impl Store for u64 {
    ghost bytes = { le64 };

    fn store(self, out: &mut [u8], at: usize) -> usize {
        let low = (self % 4294967296) as u32;
        let high = (self / 4294967296) as u32;
        (low, high).store(out, at)
    }
}

// A double's 64 bits, the high word first.
#[derive(Clone, Copy)]
pub struct Double(pub u64);

impl Store for Double {
    ghost bytes = { λ v. double_bytes v.0 };

    fn store(self, out: &mut [u8], at: usize) -> usize {
        let high = (self.0 / 4294967296) as u32;
        let low = (self.0 % 4294967296) as u32;
        (high, low).store(out, at)
    }
}

// The bytes of another slice.
impl<'a> Store for &'a [u8] {
    ghost bytes = { λ s. s.now };

    // A loop, since for `copy_from_slice` a caller in C would have to link memmove.
    fn store(self, out: &mut [u8], at: usize) -> usize {
        for i in 0..self.len() {
            out[at + i] = self[i];
        }
        at + self.len()
    }
}

// A string and its zero byte.
#[derive(Clone, Copy)]
pub struct ZeroEnded<'a>(pub &'a [u8]);

impl<'a> Store for ZeroEnded<'a> {
    ghost bytes = { λ s. zero_ended s.0.now };

    fn store(self, out: &mut [u8], at: usize) -> usize {
        (self.0, 0u8).store(out, at)
    }
}
