// What is written of a function and of a Try before their bodies, as source 000's ActionEncoder does, over a lent output. The header
// comes last: only then is its length known. The lengths of the bodies are 0 for now.
#![tactic(auto)]

ghost use Rattle.std.specs.Prelude.{◌≤◌, length};
ghost use Rattle.layout.specs.Payload.{try_payload};
ghost use Rattle.pcode.specs.Shown.{Held};
ghost use Rattle.encode_values.specs.Pieces.{piece, action, next_of, Room, Put};
ghost use Rattle.encode_owners.specs.Payloads.{target_bytes, TargetWithin, function, function2};

use editions::MainBody;
use encode_values::{Params, Strings, string_of, write_list, write_piece};
use fields::u16_at;
use opcode::OpCode;
use pcode::{CatchTarget, Function};
use positions::{BytePosition, Spot};
use stores::{Low16, Store};
use writer::write_action_header;

// A name, the parameters and the body's length.
pub fn write_define_function(
    out: &mut [u8],
    m: &MainBody<'_>,
    pos: BytePosition,
    f: Function,
) -> Spot
    requires { Held m.now f.name × Room (function m.now f) pos.0 out.old }
    ensures { Put (function m.now f) pos.0 out.old out.new result }
{
    let front = (string_of(m, f.name), Low16(f.count));
    let start = front.store(out, pos.0 + OpCode::HEADER_LEN);
    let params = Spot {
        at: f.at,
        pos: BytePosition(start),
    };
    let e = write_list::<Strings>(out, m, f.count, params);
    let end = Low16(0).store(out, e.pos.0);
    let len = OpCode::define_function_len(f.name.len, e.pos.0 - start);
    write_action_header(out, pos, OpCode::DEFINE_FUNCTION, len);
    Spot {
        at: e.at,
        pos: BytePosition(end),
    }
}

// The same with registers and flags, which stand behind the parameters in the main body, and before them in the block: so the
// parameters, which say where, are written first. With that other order the two functions are no twins.
pub fn write_define_function_2(
    out: &mut [u8],
    m: &MainBody<'_>,
    pos: BytePosition,
    f: Function,
) -> Spot
    requires { Held m.now f.name × (next_of (function2 m.now f) ≤ length m.now.b.now) × Room (function2 m.now f) pos.0 out.old }
    ensures { Put (function2 m.now f) pos.0 out.old out.new result }
{
    let front = (string_of(m, f.name), Low16(f.count));
    let fields = front.store(out, pos.0 + OpCode::HEADER_LEN);
    let start = fields + 3;
    let params = Spot {
        at: f.at,
        pos: BytePosition(start),
    };
    let e = write_list::<Params>(out, m, f.count, params);
    let flags = Low16(u16_at(m.b, e.at + 1));
    (m.b[e.at], flags).store(out, fields);
    let end = Low16(0).store(out, e.pos.0);
    let len = OpCode::define_function_2_len(f.name.len, e.pos.0 - start);
    write_action_header(out, pos, OpCode::DEFINE_FUNCTION2, len);
    Spot {
        at: e.at + 3,
        pos: BytePosition(end),
    }
}

// A name, a register, or one zero byte.
#[tactic(auto, unfolding(crate::specs::Payloads::target_bytes, crate::specs::Payloads::TargetWithin))]
fn write_catch_target(
    out: &mut [u8],
    m: &MainBody<'_>,
    pos: BytePosition,
    t: Option<CatchTarget>,
    next: usize,
) -> Spot
    requires { TargetWithin m.now t × Room (piece (target_bytes m.now t) next) pos.0 out.old }
    ensures { Put (piece (target_bytes m.now t) next) pos.0 out.old out.new result }
{
    match t {
        None => write_piece(out, pos, 0u8, next),
        Some(CatchTarget::Variable(s)) => write_piece(out, pos, string_of(m, s), next),
        Some(CatchTarget::Register(r)) => write_piece(out, pos, r, next),
    }
}

// A shape, the lengths of three bodies and a catch target.
pub fn write_try(
    out: &mut [u8],
    m: &MainBody<'_>,
    pos: BytePosition,
    shape: u8,
    t: Option<CatchTarget>,
    next: usize,
) -> Spot
    requires { TargetWithin m.now t × Room (action 0x8F (try_payload shape 0 0 0 (target_bytes m.now t)) next) pos.0 out.old }
    ensures { Put (action 0x8F (try_payload shape 0 0 0 (target_bytes m.now t)) next) pos.0 out.old out.new result }
{
    let lengths = (Low16(0), (Low16(0), Low16(0)));
    let target = (shape, lengths).store(out, pos.0 + OpCode::HEADER_LEN);
    let end = write_catch_target(out, m, BytePosition(target), t, next);
    let len = OpCode::try_len(end.pos.0 - target);
    write_action_header(out, pos, OpCode::TRY, len);
    end
}
