// The stages of a process; behind each, document 01's word. Numbers and no enum: document 01 wants the match over the number, and C may put
// any byte into a record.
pub const REMAINDER: u8 = 0; // idle

pub const ENTRY: u8 = 1; // asking

pub const WAITING: u8 = 2; // waiting

pub const GETNAME: u8 = 3; // claiming

pub const WORKING: u8 = 4; // holding

pub const PUTNAME: u8 = 5; // returning

pub const EXHAUSTED: u8 = 6; // astray
