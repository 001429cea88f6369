// The calls for C, behind a prefix. A slice is a pointer and its length. C has no Result, so that here an answer is a number, beside what
// the call gave; C gives the four numbers of a setup one by one, and a state by value, so that each call that changes one changes its own.
#![tactic(auto)]

pub mod files;
pub mod lists;
mod narrow;
pub mod records;
pub mod states;

// A part of a lent file: where it begins, and how many bytes it has.
#[repr(C)]
#[derive(Default, Drop)]
pub struct Part {
    pub offset: usize,
    pub size: usize,
}
