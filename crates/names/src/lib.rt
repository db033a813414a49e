// Records of names in a sector: what a name is, one record, all one after another, and a search among them.
#![tactic(auto)]

pub mod name;
pub mod record;
pub mod records;
pub mod search;
