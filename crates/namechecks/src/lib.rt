// The refusals of the calls about names, by what they are given.
#![tactic(auto)]

pub mod refusal;
