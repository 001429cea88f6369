// Whether a state is in range. For the crates above; a user calls those.
#![tactic(auto)]

mod counters;
mod processes;
pub mod range;
