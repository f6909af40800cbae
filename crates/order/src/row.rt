// The order's row: the parameters of a DEFINE record, as a group's row has them; its key and its owners' words are 0.
ghost use Rattle.std.specs.Prelude.{◌+◌, ◌-◌, ◌<◌, cond, length, get_or, Some, None, ◌≡◌};
ghost use Rattle.layout.specs.Frame.{places};
ghost use Rattle.rules.specs.Recorded.{value_at, optional, optional_number, optional_choice, optional_name};
ghost use Rattle.rows.specs.Layout.{max_letters};
ghost use Rattle.order.specs.Row.{one_up, value_word, order_word, order_row_of, held_of, letters_of};

use crate::values::{one_down, optional};
use layout::PLACES;
use rows::{
    BROADCAST_WORD, CALL_WORD, CLASS_WORD, FIRST_LETTER, GROUP_WORDS, KEY_WORD, LIFETIME_WORD,
    MAX_LETTERS, NAME_LENGTH, OWNER_COUNT, REFERENCE_WORD,
};
use std::array;
use table::place::define::*;
use table::place::*;

// The value of an optional element of a DEFINE record; its P-bit is at `k`.
fn value_at(place: [u32; PLACES], k: usize) -> Option<u32>
    requires { k + 1 < places }
    ensures { result ≡ cond (optional place k) (Some (value_at place (k + 1))) None }
{
    optional(place, k).then(|| place[k + 1])
}

// A value that may be absent, one up, 0 where absent.
fn one_up(value: Option<u32>) -> u64
    ensures { result ≡ one_up value }
{
    value.map_or(0, |v| u64::from(v) + 1)
}

// An optional number of a DEFINE record, one up, 0 where absent.
fn word_at(place: [u32; PLACES], k: usize) -> u64
    requires { k + 1 < places }
    ensures { result ≡ held_of (optional_number place k) }
{
    one_up(value_at(place, k))
}

// An optional choice, likewise.
fn choice_at(place: [u32; PLACES], k: usize) -> u64
    requires { k + 1 < places }
    ensures { result ≡ held_of (optional_choice place k) }
{
    one_up(value_at(place, k).map(one_down))
}

// How many letters the name has, 0 where it is absent.
fn name_count(place: [u32; PLACES]) -> u64
    ensures { result ≡ length (letters_of (optional_name place)) }
{
    if optional(place, NAME_GIVEN) {
        u64::from(place[NAME].min(MAX_LETTERS as u32))
    } else {
        0
    }
}

// A letter of the name, 0 past its end.
fn letter_at(place: [u32; PLACES], k: usize) -> u64
    requires { k < max_letters }
    ensures { result ≡ get_or (letters_of (optional_name place)) k 0 }
{
    if k < name_count(place) as usize {
        u64::from(place[LETTERS + k])
    } else {
        0
    }
}

// A parameter's word of the order's row.
// Stays: likewise, as `order_word`.
fn value_word(place: [u32; PLACES], j: usize) -> u64
    ensures { result ≡ value_word place j }
{
    match j {
        REFERENCE_WORD => word_at(place, SET_REFERENCE_GIVEN),
        CALL_WORD => choice_at(place, ACKNOWLEDGED_CALL_GIVEN),
        BROADCAST_WORD => choice_at(place, BROADCAST_GIVEN),
        CLASS_WORD => word_at(place, CLASS_GIVEN),
        LIFETIME_WORD => word_at(place, LIFETIME_GIVEN),
        _ => word_at(place, TEMPORARY_GIVEN),
    }
}

// A word of the order's row.
// Stays: `j` is a place of the row, and the layout names the places.
fn order_word(place: [u32; PLACES], j: usize) -> u64
    ensures { result ≡ order_word place j }
{
    match j {
        KEY_WORD => 0,
        NAME_LENGTH => name_count(place),
        _ if j < NAME_LENGTH => value_word(place, j),
        _ if j < OWNER_COUNT => letter_at(place, j - FIRST_LETTER),
        _ => 0,
    }
}

// The order's row.
pub fn order_row(place: [u32; PLACES]) -> [u64; GROUP_WORDS]
    ensures { result ≡ order_row_of place }
{
    array::from_fn(|j| order_word(place, j))
}
