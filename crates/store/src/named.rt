// A named group: whose it is, and what may be wrong with it.
ghost use Rattle.std.specs.Prelude.{eqb, ltb, map, ◌≡◌};
ghost use Rattle.rules.specs.Lists.{mem, any};
ghost use Rattle.order.specs.Keys.{keys_held};
ghost use Rattle.store.specs.Named.{group_fault, owned_as};
ghost use Rattle.store.specs.Places.{looked_up};
ghost use Rattle.store.specs.Storage.{group_of};

use crate::Standing;
use crate::places::place;
use order::{GroupKey, Groups, RadioKey};
use refusal::Refusal;
use rows::{FIRST_OWNER, GROUP_WORDS, MAX_OWNERS, OWNER_COUNT, lesser};

// The owners' words of a row: no more than there is room for, whatever its count says.
pub fn owners_of(row: &[u64; GROUP_WORDS]) -> &[u64]
    ensures { result.now ≡ (group_of row.now).1.owners }
{
    let count = lesser(row[OWNER_COUNT] as usize, MAX_OWNERS);
    &row[FIRST_OWNER..FIRST_OWNER + count]
}

// Whether a radio is an owner of a group.
pub fn owner_in(row: [u64; GROUP_WORDS], asker: RadioKey) -> bool
    ensures { result ≡ mem asker.0 (group_of row).1.owners }
{
    owners_of(&row).contains(&asker.0)
}

// Whether a group is the asker's: refused where there is none, or where it is another's.
pub fn owned_by(
    groups: &[[u64; GROUP_WORDS]],
    group: GroupKey,
    asker: RadioKey,
) -> Result<(), Refusal>
    ensures { result ≡ owned_as (looked_up ltb eqb (map group_of groups.now) group.0) asker.0 }
{
    let Ok(i) = place(groups, group) else {
        return Err(Refusal::NoSuchGroup);
    };
    if owner_in(groups[i], asker) {
        return Ok(());
    }
    Err(Refusal::NotOwner)
}

// Whether a named group has this fault.
// Stays: by Standing, since any-group-unique speaks of one answer, and a closure in its place would determine none.
fn has_fault(
    groups: &[[u64; GROUP_WORDS]],
    group: GroupKey,
    asker: RadioKey,
    standing: Standing,
) -> bool
    ensures { result ≡ group_fault standing (looked_up ltb eqb (map group_of groups.now) group.0) asker.0 }
{
    let Ok(i) = place(groups, group) else {
        return match standing {
            Standing::Missing | Standing::Foreign => true,
            Standing::Taken => false,
        };
    };
    match standing {
        Standing::Missing => false,
        Standing::Foreign | Standing::Taken => !owner_in(groups[i], asker),
    }
}

// Whether one of these groups has.
pub fn any_group(
    groups: &[[u64; GROUP_WORDS]],
    named: &Groups,
    asker: RadioKey,
    standing: Standing,
) -> bool
    ensures { result ≡ any (λ g. group_fault standing (looked_up ltb eqb (map group_of groups.now) g) asker.0) (keys_held named.now) }
{
    (0..named.len()).any(|i| has_fault(groups, named.at(i), asker, standing))
}
