// What is written of an action before its bodies, as source 000's ActionEncoder does, over a lent output: each case goes to the
// function that writes it.
#![tactic(auto)]

ghost use Rattle.encode.specs.Heads.{Writable, WroteHead};

use editions::MainBody;
use encode_flat::{
    write_branch, write_get_url_2, write_goto_frame_2, write_small_action, write_wait_for_frame,
};
use encode_owners::{write_define_function, write_define_function_2, write_try};
use encode_strings::{write_constant_pool, write_get_url, write_push, write_string_action};
use encode_values::write_measured_action;
use opcode::OpCode;
use pcode::Action;
use positions::Spot;
use stores::Low16;

// The header and payload of the action at a spot, without its bodies. Answers the place of the first of these, and the position
// reached.
// It goes into its caller at once, as `pcode::action_at` does.
#[inline(always)]
pub fn write_head(m: &MainBody<'_>, from: Spot, a: Action, tab: &[usize], out: &mut [u8]) -> Spot
    requires { Writable m.now from.at a from.pos.0 tab.now out.old }
    ensures { WroteHead m.now from.at a from.pos.0 tab.now out.old out.new result }
{
    let p = from.at + 1;
    let pos = from.pos;
    match a {
        Action::Small(op) => write_small_action(out, pos, op, p),
        Action::GotoFrame(frame) => write_measured_action(
            out,
            pos,
            OpCode::GOTO_FRAME,
            OpCode::U16_LEN,
            Low16(frame),
            p + 2,
        ),
        Action::GetUrl(url, target) => write_get_url(out, m, pos, url, target),
        Action::StoreRegister(r) => write_measured_action(
            out,
            pos,
            OpCode::STORE_REGISTER,
            OpCode::U8_LEN,
            r,
            p + 1,
        ),
        Action::ConstantPool(n, i) => write_constant_pool(out, m, n, Spot { at: i, pos }),
        Action::WaitForFrame(frame, skip) => write_wait_for_frame(out, pos, frame, skip, p + 3),
        Action::SetTarget(s) => write_string_action(out, m, pos, OpCode::SET_TARGET, s),
        Action::GotoLabel(s) => write_string_action(out, m, pos, OpCode::GOTO_LABEL, s),
        Action::WaitForFrame2(skip) => write_measured_action(
            out,
            pos,
            OpCode::WAIT_FOR_FRAME2,
            OpCode::U8_LEN,
            skip,
            p + 1,
        ),
        Action::DefineFunction2(f) => write_define_function_2(out, m, pos, f),
        Action::Try(shape, t, i) => write_try(out, m, pos, shape, t, i),
        Action::With(i) => write_measured_action(
            out,
            pos,
            OpCode::WITH,
            OpCode::U16_LEN,
            Low16(0),
            i,
        ),
        Action::Push(n, i) => write_push(out, m, n, Spot { at: i, pos }),
        Action::Jump(label) => write_branch(out, pos, OpCode::JUMP, label, tab, p + 2),
        Action::GetUrl2(v, t, method) => write_get_url_2(out, pos, v, t, method, p + 3),
        Action::DefineFunction(f) => write_define_function(out, m, pos, f),
        Action::If(label) => write_branch(out, pos, OpCode::IF, label, tab, p + 2),
        Action::GotoFrame2(bias, play) => write_goto_frame_2(out, pos, bias, play, p + 3),
    }
}
