#![tactic(auto)]

// The tables as the code goes by them, and what the reader and the writer both ask of an element and of a record.
// Every function takes any input, so that neither walk has to be trusted.
pub mod fields;
pub mod items;
pub mod lines;
pub mod place;
pub mod tests;

use refusal::Refusal;

// A run of bits that is there: its width, what the record holds for code 0, how many codes have a meaning, and the refusal of the others.
#[derive(Clone, Copy)]
pub struct Field {
    pub width: usize,
    pub first: u32,
    pub codes: u32,
    pub refusal: Refusal,
}
