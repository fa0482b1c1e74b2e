// Judging the branches of a main body that reads whole, against the final label tables: 10 and, by the mode, 14 and 15. `home` is
// the position at which the function body starts that a branch is in; only a function's body has another.
#![tactic(auto)]

ghost use Rattle.std.specs.Prelude.{◌≡◌, true, ◌&&◌, not, ◌+◌, ◌≤◌, ◌<◌, leb, length, get_or};
ghost use Rattle.layout.specs.Tree.{count, body_count};
ghost use Rattle.layout.specs.Read.{placed, behind, read_action, read_body};
ghost use Rattle.layout.specs.Judge.{judged_in};
ghost use Rattle.layout.specs.Lengths.{total};
ghost use Rattle.laws.specs.Resolved.{action_size, action_trace, body_length, body_events};
ghost use Rattle.measure.specs.Walk.{standing, measured, in_turn, in_bodies};
ghost use Rattle.editions.specs.Allowed.{read_by};
ghost use Rattle.answer.specs.Answered.{meant};
ghost use Rattle.judge.specs.Judging.{mode_of, refusal_of, record_by, Small, Judgeable, Judging, Says, MainJudgeable, MainJudged};
ghost use Rattle.labels.specs.Table.{is_recorded, is_at_home, record_at};

use answer::Refusal;
use bodies::next_after;
use editions::MainBody;
use fields::u16_at;
use labels::{distance, is_at_home, is_far, is_recorded};
use measure::Laid;
use opcode::OpCode;
use payload::scan_payload;
use positions::{ActionNumber, BytePosition, Cursor, DEEPEST};

// What is asked of a sheet's branches besides their distances: in strict mode, that each one's label is recorded; in a contained
// mode, that its record, if it has one, is in the function body of the branch.
#[derive(Clone, Copy)]
pub struct Mode {
    pub strict: bool,
    pub contained: bool,
}

// What is wrong with a branch: the 64 bits of a distance that does not fit; or, where its label is never recorded or is recorded in
// another function body, the position of its operand.
#[derive(Clone, Copy)]
pub enum BadBranch {
    Far(u64),
    NeverRecorded(BytePosition),
    StrayBranch(BytePosition),
}

// A branch that is refused, with its number.
#[derive(Clone, Copy)]
pub struct Refused {
    pub bad: BadBranch,
    pub action: ActionNumber,
}

impl From<Refused> for Refusal {
    ghost from_gives = { λ b r. meant r ≡ refusal_of b.bad b.action };

    #[tactic(auto, unfolding(answer::specs::Answered::meant, crate::specs::Judging::refusal_of))]
    fn from(branch: Refused) -> Refusal {
        match branch.bad {
            BadBranch::Far(bits) => Refusal::JumpOffsetOverflow(bits, branch.action),
            BadBranch::NeverRecorded(operand) => Refusal::NeverRecorded(operand, branch.action),
            BadBranch::StrayBranch(operand) => Refusal::StrayBranch(operand, branch.action),
        }
    }
}

// What branches are judged by: the mode, and the final label tables.
#[derive(Clone, Copy)]
struct Rules<'a> {
    mode: Mode,
    tab: &'a [usize],
    homes: &'a [usize],
}

// Where the walk stands after what was judged, or the first branch in writing order that is refused.
type Judged = Result<Cursor, Refused>;

// Whether strict mode refuses a branch to this label.
fn is_unrecorded(rules: &Rules<'_>, label: usize) -> bool
    requires { label < length rules.now.tab.now }
    ensures { result ≡ (rules.now.mode.strict && not (is_recorded (record_at rules.now.tab.now label))) }
{
    rules.mode.strict && !is_recorded(rules.tab, label)
}

// Whether a contained mode refuses a branch to this label from the function body that starts at `home`.
fn is_stray(rules: &Rules<'_>, label: usize, home: BytePosition) -> bool
    requires { (label < length rules.now.tab.now) × (rules.now.mode.contained ≡ true → label < length rules.now.homes.now) }
    ensures { result ≡ (rules.now.mode.contained && not (is_at_home home.0 (record_by rules.now label))) }
{
    rules.mode.contained && !is_at_home(rules.tab, rules.homes, label, home)
}

// A branch to a label, whose operand stands at position `operand`, and its number.
#[tactic(auto, using(crate::proofs::Distances::branch_unrecorded, crate::proofs::Distances::branch_stray, crate::proofs::Distances::branch_far, crate::proofs::Distances::branch_near))]
fn judge_branch(
    label: usize,
    operand: BytePosition,
    home: BytePosition,
    action: ActionNumber,
    rules: &Rules<'_>,
) -> Result<(), Refused>
    requires { (label < length rules.now.tab.now) × (rules.now.mode.contained ≡ true → label < length rules.now.homes.now) × Small rules.now.tab.now × (operand.0 + 2 ≤ 1099511627776) }
    ensures { Says (judged_in (mode_of rules.now.mode) (record_by rules.now label) (standing operand home action)) result }
{
    if is_unrecorded(rules, label) {
        let bad = BadBranch::NeverRecorded(operand);
        return Err(Refused { bad, action });
    }
    if is_stray(rules, label, home) {
        let bad = BadBranch::StrayBranch(operand);
        return Err(Refused { bad, action });
    }
    let after = BytePosition(operand.0 + OpCode::U16_LEN);
    let bits = distance(rules.tab, label, after);
    if is_far(bits) {
        let bad = BadBranch::Far(bits);
        return Err(Refused { bad, action });
    }
    Ok(())
}

// A body with `depth` levels allowed, itself included. Its label entries are stepped over.
#[cycle(judging)]
fn judge_body(
    m: &MainBody<'_>,
    from: Cursor,
    depth: usize,
    home: BytePosition,
    rules: &Rules<'_>,
) -> Judged
    requires { Judgeable (read_by m.now) (read_body (read_by m.now) m.now.b.now depth (placed from.at)) m.now.b.now from rules.now }
    ensures { Judging rules.now (measured body_length body_count body_events (standing from.pos home from.number) (read_body (read_by m.now) m.now.b.now depth (placed from.at))) result }
{
    let front = from.at + 2 + 4 * u16_at(m.b, from.at);
    let count = u16_at(m.b, front);
    let mut cursor = Cursor {
        at: front + 2,
        pos: from.pos,
        number: from.number,
    };
    for _ in 0..count {
        cursor = judge_action(m, cursor, depth - 1, home, rules)?;
    }
    Ok(cursor)
}

// The n bodies after a payload.
#[cycle(judging)]
fn judge_bodies(
    m: &MainBody<'_>,
    from: Cursor,
    depth: usize,
    home: BytePosition,
    n: usize,
    rules: &Rules<'_>,
) -> Judged
    requires { Judgeable (read_by m.now) (in_turn (read_body (read_by m.now) m.now.b.now depth) n (placed from.at)) m.now.b.now from rules.now }
    ensures { Judging rules.now (measured (total body_length) (total body_count) in_bodies (standing from.pos home from.number) (in_turn (read_body (read_by m.now) m.now.b.now depth) n (placed from.at))) result }
{
    let mut cursor = from;
    for _ in 0..n {
        cursor = judge_body(m, cursor, depth, home, rules)?;
    }
    Ok(cursor)
}

// An action within which `depth` bodies may stand one in another.
#[cycle(judging)]
fn judge_action(
    m: &MainBody<'_>,
    from: Cursor,
    depth: usize,
    home: BytePosition,
    rules: &Rules<'_>,
) -> Judged
    requires { Judgeable (read_by m.now) (read_action (read_by m.now) m.now.b.now (behind 1 (read_body (read_by m.now) m.now.b.now depth)) (placed from.at)) m.now.b.now from rules.now }
    ensures { Judging rules.now (measured action_size count action_trace (standing from.pos home from.number) (read_action (read_by m.now) m.now.b.now (behind 1 (read_body (read_by m.now) m.now.b.now depth)) (placed from.at))) result }
{
    let op = m.b[from.at];
    if op < 0x80 {
        return Ok(Cursor {
            at: from.at + 1,
            pos: BytePosition(from.pos.0 + OpCode::SMALL_LEN),
            number: ActionNumber(from.number.0 + 1),
        });
    }
    judge_large(m, op, from, depth, home, rules)
}

// An action from opcode 80 on: its branch, or its bodies, of which `depth` may stand one in another. It reads, so that its payload
// never stops; what is noted of its length was known before.
#[cycle(judging)]
fn judge_large(
    m: &MainBody<'_>,
    op: u8,
    from: Cursor,
    depth: usize,
    home: BytePosition,
    rules: &Rules<'_>,
) -> Judged
    requires { (128 ≤ op) × (op ≡ get_or m.now.b.now from.at 0) × Judgeable (read_by m.now) (read_action (read_by m.now) m.now.b.now (behind 1 (read_body (read_by m.now) m.now.b.now depth)) (placed from.at)) m.now.b.now from rules.now }
    ensures { Judging rules.now (measured action_size count action_trace (standing from.pos home from.number) (read_action (read_by m.now) m.now.b.now (behind 1 (read_body (read_by m.now) m.now.b.now depth)) (placed from.at))) result }
{
    let number = from.number;
    let mut over = None;
    match scan_payload(m, op, from, &mut over) {
        Err(_) => unreachable!(),
        Ok(Laid::Flat(after)) => Ok(next_after(after, number)),
        Ok(Laid::Branch(after, label)) => {
            let operand = BytePosition(from.pos.0 + OpCode::HEADER_LEN);
            judge_branch(label, operand, home, number, rules)?;
            Ok(next_after(after, number))
        }
        Ok(Laid::Bodies(after, n)) => {
            judge_bodies(m, next_after(after, number), depth, home, n, rules)
        }
        Ok(Laid::Function(after)) => {
            judge_bodies(m, next_after(after, number), depth, after.pos, 1, rules)
        }
    }
}

// Whether no branch can be refused, by the mode and the position where the main body's writing ends. In plain mode that is so up
// to 32,768: a branch leads from there to the start at the farthest.
fn is_clear(mode: Mode, end: BytePosition) -> bool
    ensures { result ≡ (not mode.strict && (not mode.contained && leb end.0 32768)) }
{
    !mode.strict && !mode.contained && end.0 <= 32768
}

// A main body that is written as far as position `end`. The tables are no `Tables`, which only a caller that may change them can
// lend.
pub fn judge_main(
    m: &MainBody<'_>,
    end: BytePosition,
    mode: Mode,
    tab: &[usize],
    homes: &[usize],
) -> Result<(), Refused>
    requires { MainJudgeable (read_by m.now) m.now.b.now end (mode_of mode) tab.now homes.now }
    ensures { MainJudged (read_by m.now) (mode_of mode) m.now.b.now result }
{
    if is_clear(mode, end) {
        return Ok(());
    }
    let start = Cursor {
        at: 0,
        pos: BytePosition(0),
        number: ActionNumber(0),
    };
    let rules = Rules { mode, tab, homes };
    judge_body(m, start, DEEPEST, BytePosition(0), &rules)?;
    Ok(())
}
