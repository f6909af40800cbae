// The lists of a define, read once: the keys that they name, and what they are refused for.
ghost use Rattle.std.specs.Prelude.{◌≡◌};
ghost use Rattle.order.specs.Lists.{list_of};
ghost use Rattle.rules.specs.Refusals.{first};
ghost use Rattle.replies.specs.Orders.{reply_of};
ghost use Rattle.defining.specs.Parts.{list_tests, parts_of};

use frame::PLACES;
use order::keys::{keys_named, owners_in};
use order::lists::untaken;
use order::ranges::{bad_range, too_many, too_many_owners};
use order::record::lists_of;
use order::{DefineLists, Groups, Itsi, Owners, Radios};
use refusal::Refusal;

// The groups and radios that a define names, the owners who come, and what its lists are refused for.
#[derive(Clone, Copy)]
pub struct Parts {
    pub named: Groups,
    pub radios: Radios,
    pub owners: Owners,
    pub fault: Result<(), Refusal>,
}

// What the lists are refused for: an SNA; a range whose ends are bad; too many numbers.
fn lists_fault(asker: Itsi, lists: DefineLists) -> Result<(), Refusal>
    ensures { result ≡ reply_of (first (list_tests asker.1 (list_of lists.groups) (list_of lists.owners) (list_of lists.radios))) }
{
    let groups = lists.groups;
    let owners = lists.owners;
    let radios = lists.radios;
    if untaken(groups) || untaken(owners) || untaken(radios) {
        return Err(Refusal::FormNotTaken);
    }
    if bad_range(asker, groups) || bad_range(asker, owners) || bad_range(asker, radios) {
        return Err(Refusal::BadRange);
    }
    if too_many(asker, groups) || too_many_owners(asker, owners) || too_many(asker, radios) {
        return Err(Refusal::TooManyNumbers);
    }
    Ok(())
}

// The lists read, each once.
// Stays: asker and place apart, as a define is handed over.
pub fn parts_of(asker: Itsi, place: [u32; PLACES]) -> Parts
    ensures { result ≡ parts_of asker place }
{
    let lists = lists_of(place);
    Parts {
        named: keys_named(asker, lists.groups),
        radios: keys_named(asker, lists.radios),
        owners: owners_in(asker, lists.owners),
        fault: lists_fault(asker, lists),
    }
}
