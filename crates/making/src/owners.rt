// The owners of a group's row, and how many there are with those who come.
ghost use Rattle.std.specs.Prelude.{eqb, ltb, map, ◌≡◌};
ghost use Rattle.rules.specs.Lists.{any};
ghost use Rattle.rules.specs.Owners.{max_owners};
ghost use Rattle.order.specs.Keys.{keys_as, keys_held};
ghost use Rattle.store.specs.Places.{looked_up};
ghost use Rattle.store.specs.Storage.{group_of};
ghost use Rattle.making.specs.Owners.{new_owners, owner_total};

use order::keys::Keys;
use order::{GroupKey, Groups, Owners};
use rows::{GROUP_WORDS, MAX_OWNERS};
use std::marker::PhantomData;
use store::named::{owner_in, owners_of};
use store::places::place;

// The owners of a row.
pub fn held_owners(row: [u64; GROUP_WORDS]) -> Owners
    ensures { result ≡ keys_as (group_of row).1.owners }
{
    let owners = owners_of(&row);
    let count = owners.len();
    let mut key = [0u64; MAX_OWNERS];
    key[..count].copy_from_slice(owners);
    Keys {
        count,
        key,
        of: PhantomData,
    }
}

// How many of those who come do not stand in a row.
fn new_owners(row: [u64; GROUP_WORDS], come: &Owners) -> usize
    ensures { result ≡ new_owners (group_of row).1.owners (keys_held come.now) }
{
    let is_new = |i: &usize| !owner_in(row, come.at(*i));
    (0..come.len()).filter(is_new).count()
}

// Whether a group would have too many owners.
fn crowds(groups: &[[u64; GROUP_WORDS]], group: GroupKey, come: &Owners) -> bool
    ensures { result ≡ ltb max_owners (owner_total (looked_up ltb eqb (map group_of groups.now) group.0) (keys_held come.now)) }
{
    let Ok(i) = place(groups, group) else {
        return MAX_OWNERS < come.len();
    };
    let row = groups[i];
    let held = owners_of(&row).len();
    MAX_OWNERS - held < new_owners(row, come)
}

// Whether a named group would have.
pub fn any_crowded(groups: &[[u64; GROUP_WORDS]], named: &Groups, come: &Owners) -> bool
    ensures { result ≡ any (λ g. ltb max_owners (owner_total (looked_up ltb eqb (map group_of groups.now) g) (keys_held come.now)))
        (keys_held named.now) }
{
    (0..named.len()).any(|i| crowds(groups, named.at(i), come))
}
