// The packer's answers, with the number and the value of each and the action that it names.
#![tactic(auto)]

ghost use Rattle.std.specs.Prelude.{◌≡◌};
ghost use Rattle.layout.specs.Numbers.{bits64};
ghost use Rattle.layout.specs.Answers.{ReadingFault, refusal_number, refusal_value, refusal_action};
ghost use Rattle.layout.specs.Cut.{uncut};
ghost use Rattle.cut.specs.Cuts.{refused};
ghost use Rattle.positions.specs.Scanned.{meant as meant_fault};
ghost use Rattle.measure.specs.Refusals.{refusal_of};
ghost use Rattle.answer.specs.Answered.{meant, number, value, value_by, action};

use cut::CutError;
use measure::{Limit, Overflow};
use positions::{ActionNumber, BytePosition, Fault, Halt};

// Why there is no block: the refusals of documents 01 and 02, each with its value, and 3 to 10, 14 and 15 with the number of an action;
// a distance as its 64 bits.
#[derive(Clone, Copy)]
pub enum Refusal {
    SheetTooLong(usize),
    BadTrailer,
    CutShort(usize, ActionNumber),
    UnknownCode(usize, ActionNumber),
    BadField(usize, ActionNumber),
    TooDeep(usize, ActionNumber),
    LeftOver(usize, ActionNumber),
    ActionLenOverflow(usize, ActionNumber),
    BlockLenOverflow(usize, ActionNumber),
    JumpOffsetOverflow(u64, ActionNumber),
    NoRoom(usize),
    NeverRecorded(BytePosition, ActionNumber),
    StrayBranch(BytePosition, ActionNumber),
    BadBook,
}

// What packing comes to: the length of the block.
pub type Answer = Result<usize, Refusal>;

impl Refusal {
    #[tactic(auto, unfolding(crate::specs::Answered::meant, layout::specs::Answers::refusal_number, layout::specs::Answers::fault_number))]
    pub fn number(self) -> u32
        ensures { result ≡ refusal_number (meant self) }
    {
        match self {
            Refusal::SheetTooLong(_) => 1,
            Refusal::BadTrailer => 2,
            Refusal::CutShort(_, _) => 3,
            Refusal::UnknownCode(_, _) => 4,
            Refusal::BadField(_, _) => 5,
            Refusal::TooDeep(_, _) => 6,
            Refusal::LeftOver(_, _) => 7,
            Refusal::ActionLenOverflow(_, _) => 8,
            Refusal::BlockLenOverflow(_, _) => 9,
            Refusal::JumpOffsetOverflow(_, _) => 10,
            Refusal::NoRoom(_) => 11,
            Refusal::NeverRecorded(_, _) => 14,
            Refusal::StrayBranch(_, _) => 15,
            Refusal::BadBook => 18,
        }
    }

    // The 64 bits of the value, which with the number tell it.
    #[tactic(auto, unfolding(crate::specs::Answered::meant, crate::specs::Answered::value_by, layout::specs::Answers::refusal_number, layout::specs::Answers::fault_number, layout::specs::Answers::refusal_value, layout::specs::Numbers::bits64, layout::specs::Lists::pick), using(crate::proofs::Values::signed_bits))]
    pub fn value(self) -> u64
        ensures bits { result ≡ bits64 (refusal_value (meant self)) }
        ensures told { refusal_value (meant self) ≡ value_by (refusal_number (meant self)) result }
    {
        match self {
            Refusal::SheetTooLong(n) | Refusal::NoRoom(n) => n as u64,
            Refusal::BadTrailer | Refusal::BadBook => 0,
            Refusal::CutShort(p, _)
            | Refusal::UnknownCode(p, _)
            | Refusal::BadField(p, _)
            | Refusal::TooDeep(p, _)
            | Refusal::LeftOver(p, _) => p as u64,
            Refusal::ActionLenOverflow(n, _) | Refusal::BlockLenOverflow(n, _) => n as u64,
            Refusal::JumpOffsetOverflow(bits, _) => bits,
            Refusal::NeverRecorded(p, _) | Refusal::StrayBranch(p, _) => p.0 as u64,
        }
    }

    // The number of the action that it names, or 0.
    #[tactic(auto, unfolding(crate::specs::Answered::meant, layout::specs::Answers::refusal_action))]
    pub fn action(self) -> u64
        ensures { result ≡ refusal_action (meant self) }
    {
        match self {
            Refusal::SheetTooLong(_)
            | Refusal::BadTrailer
            | Refusal::NoRoom(_)
            | Refusal::BadBook => 0,
            Refusal::CutShort(_, k)
            | Refusal::UnknownCode(_, k)
            | Refusal::BadField(_, k)
            | Refusal::TooDeep(_, k)
            | Refusal::LeftOver(_, k)
            | Refusal::ActionLenOverflow(_, k)
            | Refusal::BlockLenOverflow(_, k)
            | Refusal::JumpOffsetOverflow(_, k)
            | Refusal::NeverRecorded(_, k)
            | Refusal::StrayBranch(_, k) => k.0 as u64,
        }
    }
}

// A fault, at its place in the sheet, with the action that it names.
impl From<Halt> for Refusal {
    ghost from_gives = { λ h r. meant r ≡ ReadingFault (meant_fault h.fault) h.place h.number.0 };

    #[tactic(auto, unfolding(crate::specs::Answered::meant, positions::specs::Scanned::meant))]
    fn from(h: Halt) -> Refusal {
        match h.fault {
            Fault::CutShort => Refusal::CutShort(h.place, h.number),
            Fault::UnknownCode => Refusal::UnknownCode(h.place, h.number),
            Fault::BadField => Refusal::BadField(h.place, h.number),
            Fault::TooDeep => Refusal::TooDeep(h.place, h.number),
            Fault::LeftOver => Refusal::LeftOver(h.place, h.number),
        }
    }
}

impl From<CutError> for Refusal {
    ghost from_gives = { λ e r. uncut (meant r) ≡ refused e };

    #[tactic(auto, unfolding(crate::specs::Answered::meant, cut::specs::Cuts::refused))]
    fn from(e: CutError) -> Refusal {
        match e {
            CutError::SheetTooLong(n) => Refusal::SheetTooLong(n),
            CutError::BadTrailer => Refusal::BadTrailer,
        }
    }
}

impl From<Overflow> for Refusal {
    ghost from_gives = { λ o r. meant r ≡ refusal_of o };

    #[tactic(auto, unfolding(crate::specs::Answered::meant, measure::specs::Refusals::refusal_by))]
    fn from(o: Overflow) -> Refusal {
        match o.limit {
            Limit::ActionLen => Refusal::ActionLenOverflow(o.len, o.action),
            Limit::BlockLen => Refusal::BlockLenOverflow(o.len, o.action),
            // No walk notes another number. It counts as a body's.
            Limit::Other(_) => Refusal::BlockLenOverflow(o.len, o.action),
        }
    }
}

// The answer's number.
#[tactic(auto, unfolding(crate::specs::Answered::number))]
pub fn number_of(a: Answer) -> u32
    ensures { result ≡ number a }
{
    match a {
        Ok(_) => 0,
        Err(r) => r.number(),
    }
}

// The 64 bits of the answer's value, which with the answer's number tell it.
#[tactic(auto, unfolding(crate::specs::Answered::value, crate::specs::Answered::number, crate::specs::Answered::value_by, layout::specs::Numbers::bits64, layout::specs::Lists::pick))]
pub fn value_of(a: Answer) -> u64
    ensures bits { result ≡ bits64 (value a) }
    ensures told { value a ≡ value_by (number a) result }
{
    match a {
        Ok(n) => n as u64,
        Err(r) => r.value(),
    }
}

// The number of the action that the answer names, or 0.
#[tactic(auto, unfolding(crate::specs::Answered::action))]
pub fn action_of(a: Answer) -> u64
    ensures { result ≡ action a }
{
    match a {
        Ok(_) => 0,
        Err(r) => r.action(),
    }
}
