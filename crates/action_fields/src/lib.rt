// The fields of an opcode, as far as its bodies: read, checked and measured. They are measured from the end of the header on.
#![tactic(auto)]

ghost use Rattle.std.specs.Prelude.{◌≡◌, ◌+◌, ◌-◌, ◌≤◌};
ghost use Rattle.layout.specs.Read.{placed, read_counted};
ghost use Rattle.layout.specs.Lengths.{total};
ghost use Rattle.positions.specs.Scanned.{scanned, Roomy};
ghost use Rattle.editions.specs.Allowed.{read_by};
ghost use Rattle.lists.specs.Elements.{named_size, read_named};
ghost use Rattle.action_fields.specs.Fields.{read_wait_for_frame, read_goto_frame2, read_get_url2, read_get_url, flat_size, read_function, read_registers, read_function2, owner_size, read_caught, caught_size};

use editions::MainBody;
use lists::scan_strings;
use opcode::OpCode;
use operands::{after, read_u8, read_u16, scan_bytes, scan_flag, scan_string, stops, whole};
use positions::{BytePosition, Fault, Scan, Spot};

// ---- payloads without a body

// WaitForFrame: a frame and a count of actions to skip.
pub fn scan_wait_for_frame(m: &MainBody<'_>, from: Spot) -> Scan
    requires { Roomy m.now.b.now from.at from.pos }
    ensures { result ≡ scanned flat_size from.pos.0 (read_wait_for_frame m.now.b.now (placed from.at)) }
{
    whole(m, from.at, 2)?;
    scan_bytes(m, after(from, 2, OpCode::WAIT_FOR_FRAME_LEN), 1)
}

// GotoFrame2: a bias and whether to play; the bias is written when it is not 0.
pub fn scan_goto_frame_2(m: &MainBody<'_>, from: Spot) -> Scan
    requires { Roomy m.now.b.now from.at from.pos }
    ensures { result ≡ scanned flat_size from.pos.0 (read_goto_frame2 m.now.b.now (placed from.at)) }
{
    let bias = read_u16(m, from.at)?;
    scan_flag(m, after(from, 2, OpCode::goto_frame_2_len(bias)))
}

// GetUrl2: two flags and a method.
pub fn scan_get_url_2(m: &MainBody<'_>, from: Spot) -> Scan
    requires { Roomy m.now.b.now from.at from.pos }
    ensures { result ≡ scanned flat_size from.pos.0 (read_get_url2 m.now.b.now (placed from.at)) }
{
    let target = scan_flag(m, from)?;
    let method = scan_flag(m, target)?;
    scan_bytes(m, after(method, 0, OpCode::U8_LEN), 1)
}

// The length of a string that is written from one spot to another, its zero byte not counted.
fn text_len(from: Spot, to: Spot) -> usize
    requires { from.pos.0 + 1 ≤ to.pos.0 }
    ensures { result + 1 ≡ to.pos.0 - from.pos.0 }
{
    to.pos.0 - from.pos.0 - OpCode::string_len(0)
}

// GetUrl: two strings.
pub fn scan_get_url(m: &MainBody<'_>, from: Spot) -> Scan
    requires { Roomy m.now.b.now from.at from.pos }
    ensures { result ≡ scanned flat_size from.pos.0 (read_get_url (read_by m.now) m.now.b.now (placed from.at)) }
{
    let target = scan_string(m, from)?;
    let end = scan_string(m, target)?;
    let len = OpCode::get_url_len(text_len(from, target), text_len(target, end));
    Ok(Spot {
        at: end.at,
        pos: BytePosition(from.pos.0 + len),
    })
}

// ConstantPool: its strings; `from` has the position after the written count.
pub fn scan_constant_pool(m: &MainBody<'_>, from: Spot) -> Scan
    requires { Roomy m.now.b.now from.at from.pos }
    ensures { result ≡ scanned (total (named_size 0)) from.pos.0 (read_counted m.now.b.now (read_named (read_by m.now) m.now.b.now 0) (placed from.at)) }
{
    scan_strings(m, from, 0)
}

// ---- payloads before bodies

// A function's name and parameters. All that is written beside these is measured before the parameters, here and below.
pub fn scan_define_function(m: &MainBody<'_>, from: Spot) -> Scan
    requires { Roomy m.now.b.now from.at from.pos }
    ensures { result ≡ scanned owner_size from.pos.0 (read_function (read_by m.now) m.now.b.now (placed from.at)) }
{
    let params = scan_string(m, from)?;
    let rest = OpCode::define_function_len(0, 0) - OpCode::string_len(0);
    scan_strings(m, after(params, 0, rest), 0)
}

// A register count, and flags of which bits 9 to 15 are zero; they are not measured.
fn scan_registers(m: &MainBody<'_>, from: Spot) -> Scan
    requires { Roomy m.now.b.now from.at from.pos }
    ensures { result ≡ scanned (λ _. 0) from.pos.0 (read_registers m.now.b.now (placed from.at)) }
{
    whole(m, from.at, 1)?;
    let flags = from.at + 1;
    if 511 < read_u16(m, flags)? {
        return stops(Fault::BadField, flags);
    }
    Ok(after(from, 3, 0))
}

// A function's name, its parameters after their registers, its register count and flags. It shares two calls with the function above,
// which one function for both would wrap in a test of what follows them.
pub fn scan_define_function_2(m: &MainBody<'_>, from: Spot) -> Scan
    requires { Roomy m.now.b.now from.at from.pos }
    ensures { result ≡ scanned owner_size from.pos.0 (read_function2 (read_by m.now) m.now.b.now (placed from.at)) }
{
    let params = scan_string(m, from)?;
    let rest = OpCode::define_function_2_len(0, 0) - OpCode::string_len(0);
    let registers = scan_strings(m, after(params, 0, rest), 1)?;
    scan_registers(m, registers)
}

// A Try's shape and catch target. A name is measured from `target` on; a register, or the zero byte of a Try without a catch, ends
// at `end`.
pub fn scan_catch(m: &MainBody<'_>, from: Spot) -> Scan
    requires { Roomy m.now.b.now from.at from.pos }
    ensures { result ≡ scanned caught_size from.pos.0 (read_caught (read_by m.now) m.now.b.now (placed from.at)) }
{
    let shape = read_u8(m, from.at)?;
    let target = after(from, 1, OpCode::try_len(0));
    let end = after(from, 1, OpCode::try_len(1));
    match shape {
        0 | 2 => Ok(end),
        1 | 3 => scan_string(m, target),
        5 | 7 => scan_bytes(m, end, 1),
        _ => stops(Fault::BadField, from.at),
    }
}
