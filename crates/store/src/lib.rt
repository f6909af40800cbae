#![tactic(auto)]

// The lent storage: what stands in it and where, and its written form. The rows lent may be any.
pub mod form;
pub mod named;
pub mod places;

// A group's stretch of pairs: its first place, and the place behind its last.
#[derive(Clone, Copy)]
pub struct Stretch {
    pub from: usize,
    pub to: usize,
}

// What may be wrong with a named group: it does not stand; the asker does not own it; it stands and the asker does not own it.
#[derive(Clone, Copy)]
pub enum Standing {
    Missing,
    Foreign,
    Taken,
}
