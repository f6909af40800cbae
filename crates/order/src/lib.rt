#![tactic(auto)]

// An order as it is handed over: its lists, and what a DEFINE record says. Numbers are handed over unjudged; behind stand keys.
pub mod keys;
pub mod lists;
pub mod ranges;
pub mod record;
pub mod rising;
pub mod row;
mod spelling;
mod values;

ghost use Rattle.std.specs.Prelude.{ℕ, ◌≤◌, ◌≡◌};
ghost use Rattle.rules.specs.Named.{max_numbers};
ghost use Rattle.rows.specs.Layout.{max_listed};

use keys::Keys;
use rows::{MAX_LISTED, MAX_NUMBERS, MAX_OWNERS};

// A group's number, as it is handed over: SSI and extension. 24 bits of each are good; 32 are held, so that no key of theirs can wrap.
#[derive(Clone, Copy)]
pub struct Gtsi(pub u32, pub u32);

// A radio's number, as it is handed over: SSI and extension, likewise.
#[derive(Clone, Copy)]
pub struct Itsi(pub u32, pub u32);

// The group of a list or a show: with its extension, or a plain SSI, which takes the asker's.
// Stays: both are groups, and neither is an absence or a failure.
#[derive(Clone, Copy)]
pub enum GroupAsked {
    Whole(Gtsi),
    Plain(u32),
}

// A group, as the ledger knows it.
#[derive(Clone, Copy)]
pub struct GroupKey(pub u64);

// A radio, as the ledger knows it.
#[derive(Clone, Copy)]
pub struct RadioKey(pub u64);

// A key, which is a word: a group's or a radio's.
pub trait Key: Copy {
    ghost word_of: { Self → ℕ };

    fn of(word: u64) -> Self
        ensures { word_of result ≡ word };

    fn word(self) -> u64
        ensures { result ≡ word_of self };

    // Keys of one word are one.
    ghost alike: { (a b : Self) → word_of a ≡ word_of b → a ≡ b };
}

impl Key for GroupKey {
    ghost word_of = { λ k. k.0 };

    fn of(word: u64) -> GroupKey {
        GroupKey(word)
    }

    fn word(self) -> u64 {
        self.0
    }

    ghost alike = { λ a b e i. record { 0 = e i } };
}

impl Key for RadioKey {
    ghost word_of = { λ k. k.0 };

    fn of(word: u64) -> RadioKey {
        RadioKey(word)
    }

    fn word(self) -> u64 {
        self.0
    }

    ghost alike = { λ a b e i. record { 0 = e i } };
}

// An identity: its form (0 SNA, 1 SSI, 2 SSI and extension), and its values.
// Stays: the form is a number, since callers hand over any, and a reserved one is refused as a bad order (bad-identity-unique).
#[derive(Clone, Copy)]
pub struct Identity {
    pub form: u32,
    pub sna: u32,
    pub ssi: u32,
    pub extension: u32,
}

// A list of numbers: its number type (0 one, 1 a range, 2 to 10 that many) and places for ten identities.
// Stays: the number type is a number for the same reason (bad-list-unique).
#[derive(Clone, Copy)]
pub struct Numbers {
    pub code: u32,
    pub identity: [Identity; MAX_LISTED],
}

// The most numbers that a list may name: not fewer than its identities, and no more than there are places for.
#[derive(Clone, Copy)]
struct Most {
    count: usize,
    ghost listed: { max_listed ≤ count },
    ghost placed: { count ≤ max_numbers },
}

// The lists of a DEFINE record.
#[derive(Clone, Copy)]
pub struct DefineLists {
    pub groups: Option<Numbers>,
    pub owners: Option<Numbers>,
    pub radios: Option<Numbers>,
}

// The groups that an order names, each once.
pub type Groups = Keys<GroupKey, MAX_NUMBERS>;

// The radios that it names, likewise.
pub type Radios = Keys<RadioKey, MAX_NUMBERS>;

// The owners that it gives: the asker and those of its list, each once, rising.
pub type Owners = Keys<RadioKey, MAX_OWNERS>;
