// A plan and a power cut: what is proved of the planner and the chips together. There is no code here.
#![tactic(auto)]
