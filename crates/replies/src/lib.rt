#![tactic(auto)]

// What the ledger's orders and questions are answered with, where they are not refused.

use order::Itsi;
use rows::{MAX_LETTERS, MAX_OWNERS};

// What a show is answered with: the owners, rising, and the parameters.
// Stays: each value one up and 0 where absent, as a group's row has it: an Option of each would be made of the row's word and be taken
// apart again where it is told. Arrays with their counts, since the words past them are 0 by show-unique, and the value is Copy.
#[derive(Clone, Copy)]
pub struct Shown {
    pub count: usize,
    pub owners: [Itsi; MAX_OWNERS],
    pub reference: u64,
    pub acknowledged: u64,
    pub broadcast: u64,
    pub class: u64,
    pub lifetime: u64,
    pub temporary: u64,
    pub letters: u64,
    pub name: [u64; MAX_LETTERS],
}
