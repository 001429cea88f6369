// What the program `pads` prints: the text of a journal and of a whole day file, in a lent buffer.
#![tactic(auto)]

mod figures;
pub mod file;
pub mod lines;
mod refusal;
