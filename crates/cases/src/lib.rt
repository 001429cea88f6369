// What the programs share that are compared with the simulator: states as bytes, what they read, and lines of output.
#![tactic(auto)]

pub mod image;
pub mod input;
pub mod line;
