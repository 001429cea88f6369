// The day file: its layout, and the reader. A format, so it keeps document 01's word.
#![tactic(auto)]

pub mod layout;
pub mod reader;
