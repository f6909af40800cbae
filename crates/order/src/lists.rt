// Lists of numbers as an order lends them, and what they are refused for.
ghost use Rattle.std.specs.Prelude.{min, map, ◌≡◌};
ghost use Rattle.rules.specs.Lists.{mem, any};
ghost use Rattle.rules.specs.Number.{count, used, wide, wide_number, bad_identity, bad_list, short, untaken};
ghost use Rattle.rows.specs.Layout.{max_listed};
ghost use Rattle.order.specs.Numbers.{radio_number, group_number};
ghost use Rattle.order.specs.Lists.{identity_of, numbers_of, list_of};

use crate::{Gtsi, Identity, Itsi, Numbers};
use rows::MAX_LISTED;

// The first number that does not fit 24 bits.
const TOO_WIDE: u32 = 0x100_0000;

// Whether a part of a number is above 24 bits.
fn wide(part: u32) -> bool
    ensures { result ≡ wide part }
{
    TOO_WIDE <= part
}

// Whether a radio's number that is handed over has a part above 24 bits.
// Stays: a trait over both types of number would be longer than the two lines that it would join.
pub fn wide_radio(radio: Itsi) -> bool
    ensures { result ≡ wide_number (radio_number radio) }
{
    wide(radio.0) || wide(radio.1)
}

// Whether a group's number has.
pub fn wide_group(group: Gtsi) -> bool
    ensures { result ≡ wide_number (group_number group) }
{
    wide(group.0) || wide(group.1)
}

// Whether a number is in a list.
// Stays: `any`, since `contains` looks at four at a time, which costs more where a list is short, or empty as in a tick.
pub fn member(list: &[u64], x: u64) -> bool
    ensures { result ≡ mem x list.now }
{
    list.iter().any(|&other| x == other)
}

// How many identities a number type counts.
pub fn used_count(code: u32) -> usize
    ensures { result ≡ min (count code) max_listed }
{
    match code {
        0 => 1,
        1 => 2,
        _ => MAX_LISTED.min(code as usize),
    }
}

impl Numbers {
    // The identities in use.
    pub(crate) fn in_use(&self) -> &[Identity]
        ensures { map identity_of result.now ≡ used (numbers_of self.now) }
    {
        &self.identity[..used_count(self.code)]
    }
}

// Whether an identity has a reserved form, or a part in use above 24 bits.
pub fn bad_identity(identity: Identity) -> bool
    ensures { result ≡ bad_identity (identity_of identity) }
{
    2 < identity.form
        || (0 < identity.form && wide(identity.ssi))
        || (identity.form == 2 && wide(identity.extension))
}

// Whether an identity is an SNA.
pub fn short(identity: Identity) -> bool
    ensures { result ≡ short (identity_of identity) }
{
    identity.form == 0
}

// Whether a bad identity is in use.
// Stays: with the test passed on, the contract would have to name it through the closure, and the two lines would be no fewer.
fn any_bad(numbers: &Numbers) -> bool
    ensures { result ≡ any bad_identity (used (numbers_of numbers.now)) }
{
    numbers.in_use().iter().any(|i| bad_identity(*i))
}

// Whether an SNA is.
fn any_short(numbers: &Numbers) -> bool
    ensures { result ≡ any short (used (numbers_of numbers.now)) }
{
    numbers.in_use().iter().any(|i| short(*i))
}

// A reserved number type, or a bad identity in use.
pub fn bad_list(list: Option<Numbers>) -> bool
    ensures { result ≡ bad_list (list_of list) }
{
    list.is_some_and(|n| 10 < n.code || any_bad(&n))
}

// A form not taken: an SNA.
pub fn untaken(list: Option<Numbers>) -> bool
    ensures { result ≡ untaken (list_of list) }
{
    list.is_some_and(|n| any_short(&n))
}
