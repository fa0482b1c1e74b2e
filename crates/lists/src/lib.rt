// Lists of strings, of parameters and of push values: read, checked (3 to 5) and measured.
#![tactic(auto)]

ghost use Rattle.std.specs.Prelude.{◌≡◌, ◌≤◌};
ghost use Rattle.layout.specs.Read.{placed, read_u16, read_counted, read_value};
ghost use Rattle.layout.specs.Lengths.{total};
ghost use Rattle.positions.specs.Scanned.{scanned, Roomy};
ghost use Rattle.editions.specs.Allowed.{read_by};
ghost use Rattle.lists.specs.Elements.{named_size, read_named, constant_size, value_size};

use editions::MainBody;
use opcode::{OpCode, PushKind};
use operands::{after, read_u8, read_u16, scan_bytes, scan_flag, scan_string, stops, whole};
use positions::{Fault, Scan, Spot};

// A string after `skip` bytes: 0, or 1 for a parameter's register.
pub fn scan_named(m: &MainBody<'_>, from: Spot, skip: usize) -> Scan
    requires { Roomy m.now.b.now from.at from.pos × (skip ≤ 1) }
    ensures { result ≡ scanned (named_size skip) from.pos.0 (read_named (read_by m.now) m.now.b.now skip (placed from.at)) }
{
    whole(m, from.at, skip)?;
    scan_string(m, after(from, skip, skip))
}

// A count, then that many strings, each after `skip` bytes; `from` has the position after the written count.
pub fn scan_strings(m: &MainBody<'_>, from: Spot, skip: usize) -> Scan
    requires { Roomy m.now.b.now from.at from.pos × (skip ≤ 1) }
    ensures { result ≡ scanned (total (named_size skip)) from.pos.0 (read_counted m.now.b.now (read_named (read_by m.now) m.now.b.now skip) (placed from.at)) }
{
    let n = read_u16(m, from.at)?;
    (0..n).try_fold(after(from, 2, 0), |to, _| scan_named(m, to, skip))
}

// A constant's number; what is measured has its kind too.
fn scan_constant(m: &MainBody<'_>, from: Spot) -> Scan
    requires { Roomy m.now.b.now from.at from.pos }
    ensures { result ≡ scanned constant_size from.pos.0 (read_u16 m.now.b.now (placed from.at)) }
{
    let n = read_u16(m, from.at)?;
    Ok(after(from, 2, OpCode::push_constant_len(n)))
}

// A push value: its kind, then what the kind says.
// It goes into the loop over values at once: nearly all of a string's time is in its scan.
#[inline(always)]
pub fn scan_push_value(m: &MainBody<'_>, from: Spot) -> Scan
    requires { Roomy m.now.b.now from.at from.pos }
    ensures { result ≡ scanned value_size from.pos.0 (read_value (read_by m.now) m.now.b.now (placed from.at)) }
{
    let byte = read_u8(m, from.at)?;
    match PushKind::of(byte) {
        None => stops(Fault::UnknownCode, from.at),
        Some(PushKind::String) => scan_string(m, after(from, 1, OpCode::PUSH_KIND_LEN)),
        Some(PushKind::Null) => Ok(after(from, 1, OpCode::PUSH_KIND_LEN)),
        Some(PushKind::Undefined) => Ok(after(from, 1, OpCode::PUSH_KIND_LEN)),
        Some(PushKind::Register) => scan_bytes(m, after(from, 1, OpCode::PUSH_U8_LEN), 1),
        Some(PushKind::Boolean) => scan_flag(m, after(from, 1, OpCode::PUSH_U8_LEN)),
        Some(PushKind::Float) => scan_bytes(m, after(from, 1, OpCode::PUSH_FLOAT_LEN), 8),
        Some(PushKind::Integer) => scan_bytes(m, after(from, 1, OpCode::PUSH_INTEGER_LEN), 4),
        Some(PushKind::Constant) => scan_constant(m, after(from, 1, 0)),
    }
}

// A count, then that many push values; `from` has the position after the written count.
pub fn scan_push(m: &MainBody<'_>, from: Spot) -> Scan
    requires { Roomy m.now.b.now from.at from.pos }
    ensures { result ≡ scanned (total value_size) from.pos.0 (read_counted m.now.b.now (read_value (read_by m.now) m.now.b.now) (placed from.at)) }
{
    let n = read_u16(m, from.at)?;
    (0..n).try_fold(after(from, 2, 0), |to, _| scan_push_value(m, to))
}
