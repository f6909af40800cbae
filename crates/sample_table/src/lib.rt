#![tactic(auto)]

// The samples that are proved, in one table. There is no code here: the table is in specs/, and its one statement in proofs/.
