// Actions of a few bytes, as source 000's ActionEncoder writes them, over a lent output. `pos` is the position in the block before
// what is written, and `next` the place in the main body behind it, so that the two are no spot.
#![tactic(auto)]

ghost use Rattle.std.specs.Prelude.{◌≡◌, [], ◌+◌, ◌<◌, length, ltb, eqb};
ghost use Rattle.std.proofs.Math.Option.{none};
ghost use Rattle.layout.specs.Numbers.{le16};
ghost use Rattle.layout.specs.Tree.{WaitForFrame, GetUrl2, GotoFrame2};
ghost use Rattle.layout.specs.Payload.{headed};
ghost use Rattle.layout.specs.Judge.{judged};
ghost use Rattle.labels.specs.Table.{record_at};
ghost use Rattle.encode_values.specs.Pieces.{piece, action, flat_piece, Room, Put};
ghost use Rattle.encode_flat.specs.Branches.{table_bits};

use encode_values::{write_measured_action, write_piece};
use labels::distance;
use opcode::OpCode;
use positions::{BytePosition, Spot};
use stores::Low16;

// An action without a field: from 80 on, as Call, it has a length too.
#[tactic(auto, using(crate::proofs::Actions::short_action, crate::proofs::Actions::long_action))]
pub fn write_small_action(out: &mut [u8], pos: BytePosition, op: u8, next: usize) -> Spot
    requires { Room (piece (headed (ltb op 128) op []) next) pos.0 out.old }
    ensures { Put (piece (headed (ltb op 128) op []) next) pos.0 out.old out.new result }
{
    if op < 0x80 {
        write_piece(out, pos, op, next)
    } else {
        write_piece(out, pos, (op, Low16(OpCode::CALL_LEN)), next)
    }
}

// If and Jump: the label table is full, so that the distance is written at once. It is not too far; the 0 in that demand stands for
// the action's number, which only a refusal names.
pub fn write_branch(
    out: &mut [u8],
    pos: BytePosition,
    op: u8,
    label: usize,
    tab: &[usize],
    next: usize,
) -> Spot
    requires { (label < length tab.now) × (judged (record_at tab.now label) (pos.0 + 5) 0 ≡ none) × Room (action op (le16 (table_bits tab.now label (pos.0 + 5))) next) pos.0 out.old }
    ensures { Put (action op (le16 (table_bits tab.now label (pos.0 + 5))) next) pos.0 out.old out.new result }
{
    let after = BytePosition(pos.0 + OpCode::HEADER_LEN + OpCode::U16_LEN);
    let far = distance(tab, label, after);
    write_measured_action(out, pos, op, OpCode::U16_LEN, Low16(far as usize), next)
}

// The method's low two bits, the target at bit 6, the variables at bit 7.
#[tactic(auto, using(crate::proofs::Actions::get_url_2_bits), unfolding(layout::specs::Payload::framed, layout::specs::Payload::opcode, layout::specs::OpCode::byte))]
pub fn write_get_url_2(
    out: &mut [u8],
    pos: BytePosition,
    variables: u8,
    target: u8,
    method: u8,
    next: usize,
) -> Spot
    requires { (variables < 2) × (target < 2) × Room (flat_piece (GetUrl2 (eqb variables 1) (eqb target 1) method) next) pos.0 out.old }
    ensures { Put (flat_piece (GetUrl2 (eqb variables 1) (eqb target 1) method) next) pos.0 out.old out.new result }
{
    let bits = method % 4 + 64 * target + 128 * variables;
    write_measured_action(out, pos, OpCode::GET_URL2, OpCode::U8_LEN, bits, next)
}

// The bias is written if it is not 0, and a flag says so.
#[tactic(auto, using(crate::proofs::Actions::no_bias, crate::proofs::Actions::some_bias, crate::proofs::Actions::no_bias_long, crate::proofs::Actions::some_bias_long), unfolding(layout::specs::Payload::framed, layout::specs::Payload::opcode, layout::specs::OpCode::byte, layout::specs::Numbers::le16))]
pub fn write_goto_frame_2(
    out: &mut [u8],
    pos: BytePosition,
    scene_bias: usize,
    play: u8,
    next: usize,
) -> Spot
    requires { (play < 2) × Room (flat_piece (GotoFrame2 scene_bias (eqb play 1)) next) pos.0 out.old }
    ensures { Put (flat_piece (GotoFrame2 scene_bias (eqb play 1)) next) pos.0 out.old out.new result }
{
    let op = OpCode::GOTO_FRAME2;
    let len = OpCode::goto_frame_2_len(scene_bias);
    if scene_bias == 0 {
        write_measured_action(out, pos, op, len, play, next)
    } else {
        write_measured_action(out, pos, op, len, (play + 2, Low16(scene_bias)), next)
    }
}

// A u16 and a byte.
#[tactic(auto, unfolding(layout::specs::Payload::framed, layout::specs::Payload::opcode, layout::specs::Payload::payload, layout::specs::OpCode::byte, layout::specs::Numbers::le16))]
pub fn write_wait_for_frame(
    out: &mut [u8],
    pos: BytePosition,
    frame: usize,
    skip: u8,
    next: usize,
) -> Spot
    requires { Room (flat_piece (WaitForFrame frame skip) next) pos.0 out.old }
    ensures { Put (flat_piece (WaitForFrame frame skip) next) pos.0 out.old out.new result }
{
    write_measured_action(
        out,
        pos,
        OpCode::WAIT_FOR_FRAME,
        OpCode::WAIT_FOR_FRAME_LEN,
        (Low16(frame), skip),
        next,
    )
}
