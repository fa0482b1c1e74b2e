// A writer that carries the lent output and the position it has reached.
#![tactic(auto)]

ghost use Rattle.std.specs.Prelude.{◌≡◌, ◌∷◌, ◌+◌, ◌-◌, ◌≤◌, length};
ghost use Rattle.std.proofs.lemmas.List.Edits.{sets};
ghost use Rattle.layout.specs.Numbers.{le16};
ghost use Rattle.writer.specs.Written.{appended, patched};

use positions::BytePosition;
use stores::{Low16, Store};

// The output, and the position reached in it: the part of source 000's ActionEncoder that owns its output.
#[derive(Drop)]
pub struct Writer<'a> {
    pub out: &'a mut [u8],
    pub at: BytePosition,
}

impl<'a> Writer<'a> {
    // A writer into an output, from a position on.
    pub fn new(out: &'a mut [u8], at: BytePosition) -> Writer<'a>
        ensures { (result.out ≡ out.entry) × (result.at ≡ at) }
    {
        Writer { out, at }
    }

    // A value is appended: the position moves behind it.
    pub fn append<T: Store>(self, v: T) -> Writer<'a>
        requires { self.at.0 + length (T.bytes v) ≤ length self.out.now }
        ensures { result ≡ appended self.entry (T.bytes v) }
    {
        let at = self.at;
        let end = v.store(&mut *self.out, at.0);
        Writer {
            out: self.out,
            at: BytePosition(end),
        }
    }

    // A value is written at an earlier position. The one reached stays.
    pub fn patch<T: Store>(self, earlier: BytePosition, v: T) -> Writer<'a>
        requires { earlier.0 + length (T.bytes v) ≤ length self.out.now }
        ensures { result ≡ patched self.entry earlier (T.bytes v) }
    {
        v.store(&mut *self.out, earlier.0);
        self
    }

    // The position reached. The output is as it was.
    pub fn finish(self) -> BytePosition
        ensures { (result ≡ self.entry.at) × (self.exit.0.now ≡ self.entry.out.now) }
    {
        self.at
    }
}

// An action's header at a position, and the writer behind it. It is a function of its own because the check follows an output
// into a call's result, and from there into `finish`, but not from one writer to the next within the function that lends it: there
// the proof was tried and did not close.
fn header_at<'a>(out: &'a mut [u8], pos: BytePosition, op: u8, len: usize) -> Writer<'a>
    requires { pos.0 + 3 ≤ length out.old }
    ensures same_reference { result.out.ghost_name ≡ out.entry.ghost_name }
    ensures appends { (result.at.0 ≡ pos.0 + 3) × (result.out.now ≡ sets out.old pos.0 (op ∷ le16 len)) }
{
    Writer::new(out, pos).append((op, Low16(len)))
}

// An action's header: its opcode, then the length of its payload. Answers the position after it. Opcodes under 80 have no header
// and do not come here.
pub fn write_action_header(out: &mut [u8], pos: BytePosition, op: u8, len: usize) -> BytePosition
    requires { pos.0 + 3 ≤ length out.old }
    ensures { (result.0 ≡ pos.0 + 3) × (out.new ≡ sets out.old pos.0 (op ∷ le16 len)) }
{
    header_at(out, pos, op, len).finish()
}

// The length of a body at a position before it, and the writer behind the body. It is a function of its own as `header_at` is.
fn block_length_at<'a>(
    out: &'a mut [u8],
    at: BytePosition,
    block_start: BytePosition,
    block_end: BytePosition,
) -> Writer<'a>
    requires { (at.0 + 2 ≤ length out.old) × (block_start.0 ≤ block_end.0) }
    ensures same_reference { result.out.ghost_name ≡ out.entry.ghost_name }
    ensures patches { (result.at ≡ block_end) × (result.out.now ≡ sets out.old at.0 (le16 (block_end.0 - block_start.0))) }
{
    Writer::new(out, block_end).patch(at, Low16(block_end.0 - block_start.0))
}

// The length of a body, patched in at a position before it when it is closed.
pub fn write_block_length_at(
    out: &mut [u8],
    at: BytePosition,
    block_start: BytePosition,
    block_end: BytePosition,
)
    requires { (at.0 + 2 ≤ length out.old) × (block_start.0 ≤ block_end.0) }
    ensures { out.new ≡ sets out.old at.0 (le16 (block_end.0 - block_start.0)) }
{
    block_length_at(out, at, block_start, block_end).finish();
}
