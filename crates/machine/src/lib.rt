// The records of the machine, document 01's section State. What an event does to them is said in specs/.
#![tactic(auto)]

pub mod bytes;
pub mod counts;
pub mod kind;
pub mod numbers;
pub mod outcome;
pub mod refusal;
pub mod stage;

pub use kind::Kind;
pub use numbers::Numbers;
pub use outcome::{Dearest, GateReport};
pub use refusal::Refusal;

// The name of a process that has none: a byte of C's record, and so no Option.
pub const NO_NAME: u8 = 255;

// What a setup is given: processes (document 01: handsets) N, leaves L, segments (rows) in a leaf g, bits in a segment b, and which
// names are closed (document 02, e: closed pads): bit p of `closed` is 1 where name p is. Not a
// `Numbers` and a word: every definition and theorem names the four by one word each, and would by two.
#[repr(C)]
#[derive(Clone, Copy, Default)]
pub struct Setup {
    pub processes: u8,
    pub leaves: u8,
    pub segments: u8,
    pub bits: u8,
    pub closed: u64,
}

// One process (document 01: handset). `name` (pad) is 255 for none; since its last request, `steps` counts its getname steps (spent, the
// claim figure) and `returns` its return operations.
#[repr(C)]
#[derive(Clone, Copy, Default)]
pub struct Process {
    pub stage: u8,
    pub node: u8,
    pub segment: u8,
    pub name: u8,
    pub steps: u8,
    pub returns: u8,
}

// C's record, in fixed memory: the setup, the gate word with its queue and how many stand in it, a counter for each node (place 0 is
// unused), a word for each segment (document 01: row), and the processes.
#[repr(C)]
#[derive(Clone, Copy, Default)]
pub struct State {
    pub setup: Setup,
    pub gate: i8,
    pub queued: u8,
    pub queue: [u8; 64],
    pub counters: [u8; 16],
    pub words: [u8; 64],
    pub process: [Process; 64],
}

// For C: the state after a call, and what it answers, 0 or the number of a refusal. The state comes first: behind the answer it would lie
// past padding, and be put together aside and copied once more.
#[repr(C)]
#[derive(Clone, Copy)]
pub struct Done {
    pub state: State,
    pub answer: u8,
}

// What one getname step does: it goes left or right to a node, wins a name, moves to a segment, or finds none left
// (document 01: goes left, goes right, wins a bit, changes row or strays).
#[derive(Clone, Copy)]
pub enum ClaimStep {
    Left(u8),
    Right(u8),
    Won(u8),
    NextSegment(u8),
    Exhausted,
}

// The gate report for C: the answer, names still free at the gate (document 01: pads still open), and processes queued there.
#[repr(C)]
#[derive(Clone, Copy)]
pub struct Report {
    pub answer: u8,
    pub free: u8,
    pub queued: u8,
}

// One status record (document 01: one line of the roll). `figure` is the sum of the process's getname steps and return operations.
#[repr(C)]
#[derive(Clone, Copy)]
pub struct Status {
    pub stage: u8,
    pub name: u8,
    pub figure: u8,
}

// What a call that fills a lent buffer answers, for C: 0 or the number of a refusal, and how many bytes it wrote.
#[repr(C)]
#[derive(Clone, Copy)]
pub struct Written {
    pub answer: u8,
    pub size: usize,
}

// What the call of the dearest list answers, for C: 0 or the number of a refusal, the dearest claim's figure, and how many bytes it wrote.
#[repr(C)]
#[derive(Clone, Copy)]
pub struct DearestList {
    pub answer: u8,
    pub figure: u8,
    pub size: usize,
}
