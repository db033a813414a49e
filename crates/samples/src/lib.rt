// The sample sessions of document 01: a table in specs/, and one statement over it in proofs/.
#![tactic(auto)]
