// The status records (document 01: roll): a lent slice of them, written by one function over covered code.
#![tactic(auto)]

pub mod fill;
