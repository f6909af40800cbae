// The storage that is lent to the ledger; and M: a word of it is set, as failing memory would set it.
use crate::lines::ended;
use ledger::{
    ENTRY_WORDS, GROUP_WORDS, HEAD_WORDS, MAX_GROUPS, MAX_PAIRS, ORDER_WORDS, PAIR_WORDS,
};
use refusal::Refusal;
use words::{mark, word};

// What is lent to the ledger: its storage, and places for the orders and the radios of a reply. Arrays of fixed size: no heap.
#[derive(Drop)]
pub struct Storage {
    pub head: [u64; HEAD_WORDS],
    pub groups: [[u64; GROUP_WORDS]; MAX_GROUPS],
    pub pairs: [[u64; PAIR_WORDS]; MAX_PAIRS],
    pub orders: [[u64; ORDER_WORDS]; MAX_PAIRS],
    pub radios: [[u64; ENTRY_WORDS]; MAX_PAIRS],
}

// A part of the ledger's storage.
#[derive(Clone, Copy)]
enum Part {
    Head,
    Groups,
    Pairs,
}

impl TryFrom<u8> for Part {
    type Error = Refusal;

    fn try_from(letter: u8) -> Result<Self, Refusal> {
        match letter {
            b'H' => Ok(Part::Head),
            b'G' => Ok(Part::Groups),
            b'P' => Ok(Part::Pairs),
            _ => Err(Refusal::BadLine),
        }
    }
}

// The word that a line names, and its new value.
#[derive(Clone, Copy)]
struct Setting {
    part: Part,
    row: usize,
    at: usize,
    value: u64,
}

// M: part, row, word, value.
fn read_setting(line: &[u8]) -> Option<Setting> {
    let from = mark(line, 1, b' ')?;
    let part = Part::try_from(*line.get(from)?).ok()?;
    let row = word(line, from + 1, 4)?;
    let at = word(line, row.next, 4)?;
    let value = ended(line, word(line, at.next, 16)?)?;
    Some(Setting {
        part,
        row: row.value as usize,
        at: at.value as usize,
        value,
    })
}

// Sets a word of one of so many rows.
fn set<const WORDS: usize>(rows: &mut [[u64; WORDS]], setting: Setting) -> Result<(), Refusal> {
    if rows.len() <= setting.row || WORDS <= setting.at {
        return Err(Refusal::BadLine);
    }
    rows[setting.row][setting.at] = setting.value;
    Ok(())
}

impl Storage {
    // Before the first order: no word is written.
    pub fn new() -> Self {
        Storage {
            head: [0; HEAD_WORDS],
            groups: [[0; GROUP_WORDS]; MAX_GROUPS],
            pairs: [[0; PAIR_WORDS]; MAX_PAIRS],
            orders: [[0; ORDER_WORDS]; MAX_PAIRS],
            radios: [[0; ENTRY_WORDS]; MAX_PAIRS],
        }
    }

    // Sets the word that a line names; the head has one row.
    pub fn set_word(&mut self, line: &[u8]) -> Result<(), Refusal> {
        let setting = read_setting(line).ok_or(Refusal::BadLine)?;
        match setting.part {
            Part::Head => set(std::slice::from_mut(&mut self.head), setting),
            Part::Groups => set(&mut self.groups, setting),
            Part::Pairs => set(&mut self.pairs, setting),
        }
    }
}
