// The calls on the finish box's state. Each refuses bad input with document 01's number; one that changes the state is lent it.
#![tactic(auto)]

pub mod event;
pub mod list;
pub mod report;
pub mod setup;
