// What follows an opcode, as far as its bodies: read, checked and measured, with the first overflow noted.
#![tactic(auto)]

ghost use Rattle.std.specs.Prelude.{◌≡◌, ◌+◌, ◌≤◌, ◌<◌, length, get_or};
ghost use Rattle.std.proofs.Math.Option.{Option};
ghost use Rattle.layout.specs.OpCode.{opcode_of};
ghost use Rattle.layout.specs.Read.{Words, placed, read_label, read_fields_if};
ghost use Rattle.positions.specs.Scanned.{scanned, Roomy};
ghost use Rattle.measure.specs.Walk.{Laying, branch_laid, Tried};
ghost use Rattle.action_fields.specs.Fields.{read_caught, caught_size, bodies_after};
ghost use Rattle.editions.specs.Allowed.{bounded, read_by};

use action_fields::{
    scan_catch, scan_constant_pool, scan_define_function, scan_define_function_2, scan_get_url,
    scan_get_url_2, scan_goto_frame_2, scan_wait_for_frame,
};
use editions::MainBody;
use fields::u16_at;
use lists::scan_push;
use measure::{Laid, Overflow, Payload, note_payload};
use opcode::OpCode;
use operands::{after, scan_bytes, scan_label, scan_string};
use positions::{BytePosition, Cursor, Fault, Spot, Stop};

// Jump and If: a label.
fn scan_branch(m: &MainBody<'_>, start: Spot) -> Payload
    requires { Roomy m.now.b.now start.at start.pos }
    ensures { (o : Option Words) → result ≡ branch_laid start.pos.0 (read_label (bounded m.now.terms o) m.now.b.now 0 (placed start.at)) }
{
    let end = scan_label(m, after(start, 0, OpCode::U16_LEN))?;
    Ok(Laid::Branch(end, u16_at(m.b, start.at)))
}

// Try: one to three bodies follow, by its shape.
fn scan_try(m: &MainBody<'_>, payload: Cursor, over: &mut Option<Overflow>) -> Payload
    requires { Roomy m.now.b.now payload.at payload.pos }
    ensures { Tried (scanned caught_size payload.pos.0 (read_caught (read_by m.now) m.now.b.now (placed payload.at))) (bodies_after (get_or m.now.b.now payload.at 0)) payload.pos.0 payload.number.0 result over.old over.new }
{
    let start = Spot {
        at: payload.at,
        pos: payload.pos,
    };
    let end = note_payload(scan_catch(m, start), payload, over)?;
    let shape = m.b[start.at] as usize;
    Ok(Laid::Bodies(end, 1 + shape % 2 + shape / 2 % 2))
}

// The payload of an opcode from 80 on, which stands at `from`. A payload of a byte ends at `byte`, one of a u16 at `word`; a list is
// measured from the end of a payload whose list is empty.
pub fn scan_payload(m: &MainBody<'_>, op: u8, from: Cursor, over: &mut Option<Overflow>) -> Payload
    requires { (128 ≤ op) × (from.at < length m.now.b.now) × Roomy m.now.b.now from.at from.pos }
    ensures { Laying m.now.terms.label_bound (λ inner. read_fields_if (read_by m.now) m.now.b.now inner (opcode_of op) (placed from.at) (placed (from.at + 1))) from.at (length m.now.b.now) from.pos.0 from.number.0 over.old over.new result }
{
    let start = Spot {
        at: from.at + 1,
        pos: BytePosition(from.pos.0 + OpCode::HEADER_LEN),
    };
    let payload = Cursor {
        at: start.at,
        pos: start.pos,
        number: from.number,
    };
    let byte = after(start, 0, OpCode::U8_LEN);
    let word = after(start, 0, OpCode::U16_LEN);
    match op {
        OpCode::GOTO_FRAME => scan_bytes(m, word, 2).map(Laid::Flat),
        OpCode::GET_URL => note_payload(scan_get_url(m, start), payload, over).map(Laid::Flat),
        OpCode::STORE_REGISTER | OpCode::WAIT_FOR_FRAME2 => scan_bytes(m, byte, 1).map(Laid::Flat),
        OpCode::CONSTANT_POOL => {
            let list = after(start, 0, OpCode::constant_pool_len(0));
            note_payload(scan_constant_pool(m, list), payload, over).map(Laid::Flat)
        }
        OpCode::WAIT_FOR_FRAME => scan_wait_for_frame(m, start).map(Laid::Flat),
        OpCode::SET_TARGET | OpCode::GOTO_LABEL => {
            note_payload(scan_string(m, start), payload, over).map(Laid::Flat)
        }
        OpCode::DEFINE_FUNCTION2 => {
            note_payload(scan_define_function_2(m, start), payload, over).map(Laid::Function)
        }
        OpCode::TRY => scan_try(m, payload, over),
        OpCode::WITH => Ok(Laid::Bodies(word, 1)),
        OpCode::PUSH => {
            let list = after(start, 0, OpCode::push_len(0));
            note_payload(scan_push(m, list), payload, over).map(Laid::Flat)
        }
        OpCode::JUMP | OpCode::IF => scan_branch(m, start),
        OpCode::GET_URL2 => scan_get_url_2(m, start).map(Laid::Flat),
        OpCode::DEFINE_FUNCTION => {
            note_payload(scan_define_function(m, start), payload, over).map(Laid::Function)
        }
        OpCode::CALL => Ok(Laid::Flat(after(start, 0, OpCode::CALL_LEN))),
        OpCode::GOTO_FRAME2 => scan_goto_frame_2(m, start).map(Laid::Flat),
        _ => Err(Stop {
            fault: Fault::UnknownCode,
            place: from.at,
        }),
    }
}
