// Pieces of text, put into a lent buffer. `at` is the place in the buffer where the text goes on; a result is the place after it.
// They are put by hand and by no Display, which writes to a formatter: `print::block_text` promises each byte of the buffer.
#![tactic(auto)]

ghost use Rattle.std.specs.Prelude.{◌≡◌, [], ◌∷◌, ◌+◌, ◌*◌, ◌/◌, ◌%◌, ◌≤◌, ◌<◌, length};
ghost use Rattle.layout.specs.Order.{signed64};
ghost use Rattle.print_text.specs.Pieces.{decimal, signed, hex_digit, behind, hex_lines, Room, Put};

use stores::Store;

// ---- numbers

// A number's decimal digits.
pub fn put_number(text: &mut [u8], at: usize, n: u64) -> usize
    requires { Room 20 at text.old }
    ensures { Put (decimal n) at text.old text.new result × (result ≤ at + 20) }
{
    let mut digits = [0; 20];
    let k = io::decimal(n, &mut digits);
    (&digits[..k]).store(text, at)
}

// The signed number that has these 64 bits.
pub fn put_signed(text: &mut [u8], at: usize, bits: u64) -> usize
    requires { Room 21 at text.old }
    ensures { Put (signed (signed64 bits)) at text.old text.new result × (result ≤ at + 21) }
{
    if bits < 9223372036854775808 {
        return put_number(text, at, bits);
    }
    let place = b'-'.store(text, at);
    put_number(text, place, bits.wrapping_neg())
}

// ---- the block

// The upper-case hex digit of a number under 16.
#[tactic(auto, unfolding(crate::specs::Pieces::hex_digit, layout::specs::Lists::pick))]
fn hex_digit(d: u8) -> u8
    requires { d < 16 }
    ensures { result ≡ hex_digit d }
{
    if d < 10 { b'0' + d } else { b'A' + (d - 10) }
}

// What stands behind the byte at index i of n.
#[tactic(auto, unfolding(crate::specs::Pieces::behind, layout::specs::Lists::pick))]
fn separator(i: usize, n: usize) -> u8
    requires { i < n }
    ensures { result ≡ behind i n }
{
    if i % 16 == 15 || i + 1 == n {
        b'\n'
    } else {
        b' '
    }
}

// A byte in hex, and what stands behind it.
fn put_byte(text: &mut [u8], at: usize, byte: u8, behind: u8) -> usize
    requires { Room 3 at text.old }
    ensures { Put (hex_digit (byte / 16) ∷ hex_digit (byte % 16) ∷ behind ∷ []) at text.old text.new result }
{
    let high = hex_digit(byte / 16);
    let low = hex_digit(byte % 16);
    (high, (low, behind)).store(text, at)
}

// A block's lines.
pub fn put_block(text: &mut [u8], at: usize, block: &[u8]) -> usize
    requires { Room (3 * length block.now) at text.old }
    ensures { Put (hex_lines block.now) at text.old text.new result }
{
    let mut place = at;
    for (i, byte) in block.iter().enumerate() {
        place = put_byte(text, place, *byte, separator(i, block.len()));
    }
    place
}
