// What a range is refused for: its ends, and how many numbers it has.
ghost use Rattle.std.specs.Prelude.{ltb, [], ◌∷◌, ◌≡◌};
ghost use Rattle.std.proofs.Math.Option.{some};
ghost use Rattle.rules.specs.Number.{identified};
ghost use Rattle.rules.specs.Named.{span, crossed, bad_range, too_many, max_numbers, max_listed_owners};
ghost use Rattle.order.specs.Lists.{identity_of, numbers_of, list_of};

use crate::keys::{extension_in, identity_key};
use crate::{Identity, Itsi, Most, Numbers};
use rows::{MAX_LISTED_OWNERS, MAX_NUMBERS};

// "First above last or extensions differ"; `home` is the asker's extension.
fn crossed(first: Identity, last: Identity, home: u32) -> bool
    ensures { result ≡ crossed (identified home (identity_of first) ∷ identified home (identity_of last) ∷ []) }
{
    last.ssi < first.ssi || extension_in(first, home) != extension_in(last, home)
}

// A range with such ends.
// Stays: home and list apart, since the home is the asker's, and one for all lists of an order.
fn crossed_ends(home: u32, listed: &Numbers) -> bool
    ensures { result ≡ bad_range home (some (numbers_of listed.now)) }
{
    listed.code == 1 && crossed(listed.identity[0], listed.identity[1], home)
}

// The same of a list that may not be given.
pub fn bad_range(asker: Itsi, list: Option<Numbers>) -> bool
    ensures { result ≡ bad_range asker.1 (list_of list) }
{
    list.is_some_and(|n| crossed_ends(asker.1, &n))
}

// Whether there are more than `most` keys from a first to a last.
fn too_long(first: u64, last: u64, most: usize) -> bool
    ensures { result ≡ ltb most (span first last) }
{
    first <= last && most as u64 <= last - first
}

// Whether a list names more than `most` numbers: only a range can.
fn more_than(home: u32, listed: &Numbers, most: Most) -> bool
    ensures { result ≡ too_many most.count home (some (numbers_of listed.now)) }
{
    let first = identity_key(listed.identity[0], home);
    let last = identity_key(listed.identity[1], home);
    listed.code == 1 && too_long(first, last, most.count)
}

// The same of a list that may not be given.
fn exceeds(home: u32, list: Option<Numbers>, most: Most) -> bool
    ensures { result ≡ too_many most.count home (list_of list) }
{
    list.is_some_and(|n| more_than(home, &n, most))
}

// Whether a list of groups or radios names too many.
pub fn too_many(asker: Itsi, list: Option<Numbers>) -> bool
    ensures { result ≡ too_many max_numbers asker.1 (list_of list) }
{
    exceeds(asker.1, list, Most { count: MAX_NUMBERS })
}

// Whether a list of owners does.
pub fn too_many_owners(asker: Itsi, list: Option<Numbers>) -> bool
    ensures { result ≡ too_many max_listed_owners asker.1 (list_of list) }
{
    exceeds(
        asker.1,
        list,
        Most {
            count: MAX_LISTED_OWNERS,
        },
    )
}
