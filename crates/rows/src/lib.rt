#![tactic(auto)]

// The layout of the lent storage and rooms: how many rows there are, how many words a row has, and which word says what.
// Definitions have the same names, in specs/Layout.antt.

ghost use Rattle.std.specs.Prelude.{min, ◌≡◌};

// The most groups and pairs; owners of a group, letters of its name; identities of a list, and numbers and owners that a list may name.
pub const MAX_GROUPS: usize = 320;

pub const MAX_PAIRS: usize = 2048;

pub const MAX_OWNERS: usize = 16;

pub const MAX_LETTERS: usize = 16;

pub const MAX_LISTED: usize = 10;

pub const MAX_NUMBERS: usize = 64;

pub const MAX_LISTED_OWNERS: usize = 10;

// The words of the head, of a group's row and of a pair's row; of an outgoing order and of a listed radio.
pub const HEAD_WORDS: usize = 2;

pub const GROUP_WORDS: usize = 41;

pub const PAIR_WORDS: usize = 4;

pub const ORDER_WORDS: usize = 5;

pub const ENTRY_WORDS: usize = 3;

// The head: how many groups, how many pairs.
pub const GROUP_COUNT: usize = 0;

pub const PAIR_COUNT: usize = 1;

// A group's row: its key; six values; the name's length and letters; how many owners, and they.
pub const KEY_WORD: usize = 0;

pub const REFERENCE_WORD: usize = 1;

pub const CALL_WORD: usize = 2;

pub const BROADCAST_WORD: usize = 3;

pub const CLASS_WORD: usize = 4;

pub const LIFETIME_WORD: usize = 5;

pub const TEMPORARY_WORD: usize = 6;

pub const NAME_LENGTH: usize = 7;

pub const FIRST_LETTER: usize = 8;

pub const OWNER_COUNT: usize = 24;

pub const FIRST_OWNER: usize = 25;

// A pair's row: group, radio, state, ticks.
pub const PAIR_GROUP: usize = 0;

pub const PAIR_RADIO: usize = 1;

pub const PAIR_STATE: usize = 2;

pub const PAIR_TICKS: usize = 3;

// An outgoing order: its kind; its radio and its group, each an SSI and behind it the extension.
pub const ORDER_KIND: usize = 0;

pub const ORDER_RADIO: usize = 1;

pub const ORDER_GROUP: usize = 3;

// A listed radio: an SSI and behind it the extension; its state.
pub const ENTRY_RADIO: usize = 0;

pub const ENTRY_STATE: usize = 2;

// The states of a pair that code looks at; and T1, the ticks after which a waiting or leaving pair is unheard.
// Stays: states are words, and no enum, since a lent row may hold any word, and a list tells the word.
pub const WAITING: u64 = 1;

pub const CONFIRMED: u64 = 2;

pub const UNHEARD: u64 = 3;

pub const LEAVING: u64 = 4;

pub const WOULD_NOT_LEAVE: u64 = 5;

pub const LEAVING_UNHEARD: u64 = 6;

pub const T1: u64 = 30;

// The lesser of two numbers, by which a count that stands in lent words is held to the places that there are.
// Stays: lesser-unique speaks of it, and so of each place that cuts by it.
pub fn lesser(a: usize, b: usize) -> usize
    ensures { result ≡ min a b }
{
    a.min(b)
}
