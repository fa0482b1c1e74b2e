// What the C-callable entries of the archive libmerinovault.a do, which merinovault_c exports: the number is returned, and the value
// and the action number fill a lent slice of 16 bytes, each as a little-endian i64. A value slice of any other length is answered 11
// before everything else, and nothing is written.
#![tactic(auto)]

ghost use Rattle.std.specs.Prelude.{◌≡◌, ◌++◌, length};
ghost use Rattle.layout.specs.Numbers.{le64};
ghost use Rattle.merinovault.specs.Calls.{mode_by, PackCalled, StepCalled};

use answer::{action_of, number_of, value_of};
use judge::Mode;
use step::Unclean;
use stores::Store;

// Fills a value slice: the 64 bits of the value, then those of the action number.
fn fill_value(value: &mut [u8], bits: u64, action: u64)
    requires { length value.old ≡ 16 }
    ensures { value.new ≡ le64 bits ++ le64 action }
{
    (bits, action).store(value, 0);
}

// Packs a sheet, whose strings may name the entries of a book, into the lent output, in a mode that is strict or not and contained
// or not. The output's bytes past a Done length keep their values; on any other answer all do.
pub fn merinovault_pack(
    sheet: &[u8],
    book: &[u8],
    strict: bool,
    contained: bool,
    out: &mut [u8],
    value: &mut [u8],
) -> u32
    ensures { PackCalled (mode_by strict contained) sheet.now book.now out.old value.old result value.new out.new }
{
    if value.len() != 16 {
        return 11;
    }
    let mode = Mode { strict, contained };
    let answer = pack::pack(sheet, book, mode, out);
    fill_value(value, value_of(answer), action_of(answer));
    number_of(answer)
}

// Steps through a block to its last byte, and tells whether its last step is an End. No answer names an action.
pub fn merinovault_step(block: &[u8], value: &mut [u8]) -> u32
    ensures { StepCalled block.now value.old result value.new }
{
    if value.len() != 16 {
        return 11;
    }
    match step::step(block) {
        Ok(count) => {
            fill_value(value, count as u64, 0);
            0
        }
        Err(Unclean { place }) => {
            fill_value(value, place as u64, 0);
            13
        }
    }
}
