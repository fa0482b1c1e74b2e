// The archive's two entries, as C and Rust call them: each is the function of the same name of the library merinovault, with its
// promise.
#![tactic(auto)]

ghost use Rattle.merinovault.specs.Calls.{mode_by, PackCalled, StepCalled};

// Packs a sheet, whose strings may name the entries of a book, into the lent output, in a mode that is strict or not and contained
// or not.
#[unsafe(no_mangle)]
pub extern "C" fn merinovault_pack(
    sheet: &[u8],
    book: &[u8],
    strict: bool,
    contained: bool,
    out: &mut [u8],
    value: &mut [u8],
) -> u32
    ensures { PackCalled (mode_by strict contained) sheet.now book.now out.old value.old result value.new out.new }
{
    merinovault::merinovault_pack(sheet, book, strict, contained, out, value)
}

// Steps through a block to its last byte, and tells whether its last step is an End.
#[unsafe(no_mangle)]
pub extern "C" fn merinovault_step(block: &[u8], value: &mut [u8]) -> u32
    ensures { StepCalled block.now value.old result value.new }
{
    merinovault::merinovault_step(block, value)
}
