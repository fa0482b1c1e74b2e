// The stepping check: steps through a block to its last byte, straight into bodies, and says whether its last step is an End.
#![tactic(auto)]

ghost use Rattle.std.specs.Prelude.{◌≡◌, ◌<◌, length};
ghost use Rattle.layout.specs.Step.{step};
ghost use Rattle.step.specs.Steps.{look_at, told};

use fields::u16_at;

// Where a block is unclean: at an opcode whose step passes the end, or at the end, since the last step is no End.
#[derive(Clone, Copy)]
pub struct Unclean {
    pub place: usize,
}

// The place that the step at a place goes to, or None where it passes the end.
#[tactic(auto, unfolding(crate::specs::Steps::look_at, layout::specs::Step::reach, layout::specs::Lists::pick))]
fn look_at(block: &[u8], at: usize) -> Option<usize>
    requires { at < length block.now }
    ensures { result ≡ look_at block.now at }
{
    if block[at] < 0x80 {
        return Some(at + 1);
    }
    let left = block.len() - at;
    if left < 3 {
        return None;
    }
    let n = u16_at(block, at + 1);
    if left - 3 < n {
        return None;
    }
    Some(at + (3 + n))
}

// Steps from byte 0 to the last byte, and counts the steps. `ended` says whether the last step was an End, which may stand in the
// middle too, with a branch past it. The loop counts places, since a place is its answer, and is left by break with that,
// as docs/DECISIONS.md's forms ask.
pub fn step(block: &[u8]) -> Result<usize, Unclean>
    ensures { told result ≡ step block.now }
{
    let mut at = 0;
    let mut count = 0;
    let mut ended = false;
    loop {
        if block.len() <= at {
            if ended {
                break Ok(count);
            }
            break Err(Unclean { place: block.len() });
        }
        let Some(next) = look_at(block, at) else {
            break Err(Unclean { place: at });
        };
        ended = block[at] == 0;
        at = next;
        count += 1;
    }
}
