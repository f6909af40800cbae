// Owners who come to those who stand.
ghost use Rattle.std.specs.Prelude.{◌++◌, ◌≡◌};
ghost use Rattle.rules.specs.Lists.{rising};
ghost use Rattle.order.specs.Keys.{keys_as, keys_held};
ghost use Rattle.store.specs.Storage.{group_of};
ghost use Rattle.defining.specs.Joining.{Joins};

use making::owners::held_owners;
use order::Owners;
use order::keys::Keys;
use order::rising::enter;
use rows::GROUP_WORDS;
use std::marker::PhantomData;

// The owners of a row and those who come, each once, rising.
pub fn joined(row: [u64; GROUP_WORDS], come: &Owners) -> Owners
    requires { Joins row (keys_held come.now) }
    ensures { result ≡ keys_as (rising ((group_of row).1.owners ++ keys_held come.now)) }
{
    let standing = held_owners(row);
    let mut key = standing.key;
    let mut count = standing.count;
    for owner in come.as_slice() {
        count = enter(&mut key, count, *owner);
    }
    Keys {
        count,
        key,
        of: PhantomData,
    }
}
