// What makes a setup's state: the limits of its numbers, its closed names, a counter's fresh value, and the states that a setup gives.
#![tactic(auto)]

pub mod accepted;
pub mod closed;
pub mod closing;
mod limits;
pub mod state;
