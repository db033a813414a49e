// Scripts as bytes (01, "Scripts and plans"): what one record says, what a whole script counts, and records written. Nothing here knows a chip.
#![tactic(auto)]

mod marks;
pub mod measure; // what a script amounts to
pub mod reader; // one record at an offset, and its frame as a part of the script
pub mod survey; // a whole script, checked and counted
pub mod writer; // records laid into a lent buffer
