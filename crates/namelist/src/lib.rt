// The list of names by position: a length byte, then the name, by turns.
#![tactic(auto)]

pub mod list;
pub mod twice;
