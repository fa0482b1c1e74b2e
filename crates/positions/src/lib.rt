// The kinds that the walks share: where reading and writing stand, and what the walk over one part of a main body answers.
#![tactic(auto)]

// The index of an action in its body's list: what label_positions of source 001's Actions holds.
#[derive(Clone, Copy)]
pub struct ActionIndex(pub u32);

// A position in the written block: what label_positions of source 000's ActionEncoder holds.
#[derive(Clone, Copy)]
pub struct BytePosition(pub usize);

// The number of an action, counted from 0 in sheet order through all bodies.
#[derive(Clone, Copy)]
pub struct ActionNumber(pub usize);

// As many bodies may stand one in another, the main body among them.
pub const DEEPEST: usize = 16;

// What reading can meet: 3 to 7 of document 01.
#[derive(Clone, Copy)]
pub enum Fault {
    CutShort,
    UnknownCode,
    BadField,
    TooDeep,
    LeftOver,
}

// The place in the main body where reading stands, and the position in the block that writing has reached there, or would have.
#[derive(Clone, Copy)]
pub struct Spot {
    pub at: usize,
    pub pos: BytePosition,
}

// A fault, and the place where it was met.
#[derive(Clone, Copy)]
pub struct Stop {
    pub fault: Fault,
    pub place: usize,
}

// What reading a field or a list comes to: the spot after it.
pub type Scan = Result<Spot, Stop>;

// Where a walk over actions stands: a spot, and the number of the next action.
#[derive(Clone, Copy)]
pub struct Cursor {
    pub at: usize,
    pub pos: BytePosition,
    pub number: ActionNumber,
}

// A fault, its place, and the number of the action being read, or else of the next.
#[derive(Clone, Copy)]
pub struct Halt {
    pub fault: Fault,
    pub place: usize,
    pub number: ActionNumber,
}

// What reading a part that holds actions comes to: where the walk stands after it.
pub type Walked = Result<Cursor, Halt>;
