// The keys that a list names: those of its identities, or all of a range.
ghost use Rattle.std.specs.Prelude.{◌+◌, ◌^◌, ◌≤◌, [], map, ◌≡◌};
ghost use Rattle.rules.specs.Lists.{once};
ghost use Rattle.rules.specs.Number.{used, identity_key};
ghost use Rattle.rules.specs.Named.{consecutive, span, numbers, numbers_in, max_numbers};
ghost use Rattle.order.specs.Keys.{fitting, keys_as};
ghost use Rattle.order.specs.Lists.{numbers_of, list_of};

use crate::keys::{Keys, identity_key};
use crate::lists::member;
use crate::{Most, Numbers};
use rows::MAX_NUMBERS;
use std::marker::PhantomData;

// No keys.
fn no_keys<K>() -> Keys<K, MAX_NUMBERS>
    ensures { result ≡ keys_as [] }
{
    Keys {
        count: 0,
        key: [0; MAX_NUMBERS],
        of: PhantomData,
    }
}

// The keys of the identities in use, each once, at its first place; `home` is the asker's extension.
fn listed_keys<K>(home: u32, listed: &Numbers) -> Keys<K, MAX_NUMBERS>
    ensures { result ≡ keys_as (once (map (identity_key home) (used (numbers_of listed.now)))) }
{
    let mut key = [0u64; MAX_NUMBERS];
    let mut count: usize = 0;
    for identity in listed.in_use() {
        let x = identity_key(*identity, home);
        if !member(&key[..count], x) {
            key[count] = x;
            count += 1;
        }
    }
    Keys {
        count,
        key,
        of: PhantomData,
    }
}

// So many keys in a row, from the first on.
fn consecutive_keys<K>(first: u64, count: usize) -> Keys<K, MAX_NUMBERS>
    requires { (count ≤ max_numbers) × (first + count ≤ 2 ^ 64) }
    ensures { result ≡ keys_as (consecutive first count) }
{
    let mut key = [0u64; MAX_NUMBERS];
    // Stays: by index, which is what is added; with iter_mut it would be counted beside it.
    for i in 0..count {
        key[i] = first + i as u64;
    }
    Keys {
        count,
        key,
        of: PhantomData,
    }
}

// The keys of a range, from its first to its last; none where they are more than `most`. No number past the last is made.
fn range_keys<K>(first: u64, last: u64, most: Most) -> Keys<K, MAX_NUMBERS>
    ensures { result ≡ keys_as (fitting most.count (consecutive first (span first last))) }
{
    if last < first || most.count as u64 <= last - first {
        return no_keys();
    }
    consecutive_keys(first, (last - first) as usize + 1)
}

// The keys of a list; none where they are more than `most`.
fn keys_of<K>(home: u32, listed: &Numbers, most: Most) -> Keys<K, MAX_NUMBERS>
    ensures { result ≡ keys_as (fitting most.count (numbers home (numbers_of listed.now))) }
{
    if listed.code == 1 {
        let first = identity_key(listed.identity[0], home);
        let last = identity_key(listed.identity[1], home);
        return range_keys(first, last, most);
    }
    listed_keys(home, listed)
}

// The keys of a list, none where it is not given.
pub fn keys_in<K>(home: u32, list: Option<Numbers>, most: Most) -> Keys<K, MAX_NUMBERS>
    ensures { result ≡ keys_as (fitting most.count (numbers_in home (list_of list))) }
{
    match list {
        Some(listed) => keys_of(home, &listed, most),
        None => no_keys(),
    }
}
