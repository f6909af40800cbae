#![tactic(auto)]

// A group's row as an order leaves it, and its owners.
pub mod owners;

ghost use Rattle.std.specs.Prelude.{◌≡◌};
ghost use Rattle.order.specs.Keys.{keys_held};
ghost use Rattle.making.specs.Row.{keeps_word, made_word, made_row};

use order::{GroupKey, Owners};
use rows::{FIRST_OWNER, GROUP_WORDS, KEY_WORD, NAME_LENGTH, OWNER_COUNT};
use std::array;

// Whether a parameter's word stays: the order has none.
fn keeps_word(order: [u64; GROUP_WORDS], j: usize) -> bool
    ensures { result ≡ keeps_word order j }
{
    if j < NAME_LENGTH {
        return order[j] == 0;
    }
    order[NAME_LENGTH] == 0
}

// A word of the row; past the last owner it is 0.
fn made_word(
    group: GroupKey,
    order: [u64; GROUP_WORDS],
    old: [u64; GROUP_WORDS],
    owners: &[u64],
    j: usize,
) -> u64
    ensures { result ≡ made_word group.0 order old owners.now j }
{
    if j == KEY_WORD {
        return group.0;
    }
    if j == OWNER_COUNT {
        return owners.len() as u64;
    }
    if FIRST_OWNER <= j {
        return owners.get(j - FIRST_OWNER).copied().unwrap_or(0);
    }
    if keeps_word(order, j) {
        return old[j];
    }
    order[j]
}

// A group's row: its key; a parameter that the order has, else the one that was there; these owners.
pub fn made_row(
    group: GroupKey,
    order: [u64; GROUP_WORDS],
    old: [u64; GROUP_WORDS],
    owners: &Owners,
) -> [u64; GROUP_WORDS]
    ensures { result ≡ made_row group.0 order old (keys_held owners.now) }
{
    array::from_fn(|j| made_word(group, order, old, owners.as_slice(), j))
}
