#![tactic(auto)]

// The rules of the group ledger: definitions and proofs, and what an answer is for.

// "An answer now says whether it is for an assignment or a deassignment".
#[derive(Clone, Copy)]
pub enum AnswerKind {
    Assignment,
    Deassignment,
}
