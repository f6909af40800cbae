#![tactic(auto)]

// The ledger over any run of calls: definitions and proofs alone.
