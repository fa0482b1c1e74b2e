// The last step of packing: 11 where there is no room for the block, else the block is written.
#![tactic(auto)]

ghost use Rattle.layout.specs.Pack.{block_in};
ghost use Rattle.editions.specs.Allowed.{read_by};
ghost use Rattle.if_room.specs.Near.{MainNear, MainAnswered};

use answer::{Answer, Refusal};
use editions::MainBody;
use opcode::OpCode;
use positions::BytePosition;
use write::write_main;

// A main body in which no branch goes too far, and whose actions end at position `end`: 11 or 0. The writer is lent the front of
// the output that the block fills, its End with it, and nothing past it.
#[tactic(auto, using(crate::proofs::Nears::front_long, crate::proofs::Nears::near_writable, editions::proofs::Listed::terms_short))]
pub fn pack_near(m: &MainBody<'_>, end: BytePosition, tab: &[usize], out: &mut [u8]) -> Answer
    requires { MainNear (read_by m.now) m.now.b.now end tab.now }
    ensures { MainAnswered (read_by m.now) block_in m.now.b.now out.old result out.new }
{
    let len = end.0 + OpCode::SMALL_LEN;
    if out.len() < len {
        return Err(Refusal::NoRoom(len));
    }
    let reached = write_main(m, tab, &mut out[..len]);
    Ok(reached.0)
}
