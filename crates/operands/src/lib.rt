// One field of a main body: read, checked (3 and 5) and measured.
#![tactic(auto)]

ghost use Rattle.std.specs.Prelude.{◌≡◌, ◌+◌, ◌≤◌, ◌<◌, get_or, length, IfOk, IfErr};
ghost use Rattle.std.proofs.Math.Option.{Option};
ghost use Rattle.layout.specs.Numbers.{u16_at};
ghost use Rattle.layout.specs.Read.{Words, placed, read_bytes, read_flag, read_label, read_plain, read_word, read_string};
ghost use Rattle.positions.specs.Scanned.{scanned, stops_at, Roomy};
ghost use Rattle.editions.specs.Allowed.{bounded, read_by};
ghost use Rattle.editions.specs.Words.{words_by};
ghost use Rattle.operands.specs.Operands.{string_size, CutShort};

use editions::MainBody;
use fields::{first_nul, u16_at};
use opcode::OpCode;
use positions::{BytePosition, Fault, Scan, Spot, Stop};
use words::word_at;

// The spot after so many bytes more that are read, and so many that are written.
pub fn after(from: Spot, read: usize, written: usize) -> Spot
    requires { (from.at + read ≤ usize.MAX) × (from.pos.0 + written ≤ usize.MAX) }
    ensures { (result.at ≡ from.at + read) × (result.pos.0 ≡ from.pos.0 + written) }
{
    Spot {
        at: from.at + read,
        pos: BytePosition(from.pos.0 + written),
    }
}

// A fault that was met at a place.
pub fn stops(fault: Fault, place: usize) -> Scan
    ensures { result ≡ stops_at place fault }
{
    Err(Stop { fault, place })
}

// Whether n bytes stand at a place, or the main body is cut short there.
pub fn whole(m: &MainBody<'_>, at: usize, n: usize) -> Result<(), Stop>
    requires { at ≤ length m.now.b.now }
    ensures ok { IfOk result (λ _. at + n ≤ length m.now.b.now) }
    ensures err { IfErr result (CutShort m.now.b.now at n) }
{
    if m.b.len() - at < n {
        return Err(Stop {
            fault: Fault::CutShort,
            place: at,
        });
    }
    Ok(())
}

// The byte at a place.
pub fn read_u8(m: &MainBody<'_>, at: usize) -> Result<u8, Stop>
    requires { at ≤ length m.now.b.now }
    ensures ok { IfOk result (λ n. (at + 1 ≤ length m.now.b.now) × (n ≡ get_or m.now.b.now at 0)) }
    ensures err { IfErr result (CutShort m.now.b.now at 1) }
{
    whole(m, at, 1)?;
    Ok(m.b[at])
}

// The number of two bytes at a place.
pub fn read_u16(m: &MainBody<'_>, at: usize) -> Result<usize, Stop>
    requires { at ≤ length m.now.b.now }
    ensures ok { IfOk result (λ n. (at + 2 ≤ length m.now.b.now) × (n ≡ u16_at m.now.b.now at) × (n < 65536)) }
    ensures err { IfErr result (CutShort m.now.b.now at 2) }
{
    whole(m, at, 2)?;
    Ok(u16_at(m.b, at))
}

// n bytes.
pub fn scan_bytes(m: &MainBody<'_>, from: Spot, n: usize) -> Scan
    requires { from.at ≤ length m.now.b.now }
    ensures { result ≡ scanned (λ _. 0) from.pos.0 (read_bytes m.now.b.now n (placed from.at)) }
{
    whole(m, from.at, n)?;
    Ok(after(from, n, 0))
}

// A byte that is 0 or 1.
pub fn scan_flag(m: &MainBody<'_>, from: Spot) -> Scan
    requires { from.at ≤ length m.now.b.now }
    ensures { result ≡ scanned (λ _. 0) from.pos.0 (read_flag m.now.b.now (placed from.at)) }
{
    if 1 < read_u8(m, from.at)? {
        return stops(Fault::BadField, from.at);
    }
    Ok(after(from, 1, 0))
}

// The label number of a branch, whatever words the terms allow.
pub fn scan_label(m: &MainBody<'_>, from: Spot) -> Scan
    requires { from.at ≤ length m.now.b.now }
    ensures { (o : Option Words) → result ≡ scanned (λ _. 0) from.pos.0 (read_label (bounded m.now.terms o) m.now.b.now 0 (placed from.at)) }
{
    if m.terms.label_bound <= read_u16(m, from.at)? {
        return stops(Fault::BadField, from.at);
    }
    Ok(after(from, 2, 0))
}

// The number of a word, in place of a string's bytes.
fn scan_word(m: &MainBody<'_>, from: Spot, count: u16) -> Scan
    requires { Roomy m.now.b.now from.at from.pos }
    ensures { result ≡ scanned string_size from.pos.0 (read_word m.now.b.now (words_by m.now.words.now m.now.index.now count) (placed from.at)) }
{
    let i = read_u16(m, from.at)?;
    if count as usize <= i {
        return stops(Fault::BadField, from.at);
    }
    let word = word_at(m, count as usize, i);
    Ok(after(from, 2, OpCode::string_len(word.len)))
}

// A string by its bytes, of which there are n, none zero.
fn scan_plain(m: &MainBody<'_>, from: Spot, n: usize) -> Scan
    requires { Roomy m.now.b.now from.at from.pos × (n < 65536) }
    ensures { result ≡ scanned string_size from.pos.0 (read_plain m.now.b.now n (placed from.at)) }
{
    whole(m, from.at, n)?;
    let z = first_nul(m.b, from.at, n);
    if z < from.at + n {
        return stops(Fault::BadField, z);
    }
    Ok(after(from, n, OpCode::string_len(n)))
}

// A string: its length, then its bytes; or 65,535, where the terms allow words, then the number of one.
// It goes into its callers at once, as most of reading is of strings.
#[inline(always)]
pub fn scan_string(m: &MainBody<'_>, from: Spot) -> Scan
    requires { Roomy m.now.b.now from.at from.pos }
    ensures { result ≡ scanned string_size from.pos.0 (read_string (read_by m.now) m.now.b.now (placed from.at)) }
{
    let n = read_u16(m, from.at)?;
    let p = after(from, 2, 0);
    match m.terms.word_count {
        Some(count) if n == 65535 => scan_word(m, p, count),
        _ => scan_plain(m, p, n),
    }
}
