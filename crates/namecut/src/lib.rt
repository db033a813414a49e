// A cut never makes up a name: what the scripts of `flags` leave, run to their end or cut anywhere, and over a whole history. There is no code here: the
// statement is in specs/, and the theorems are in proofs/Laws, from the planner's promises alone.
#![tactic(auto)]
