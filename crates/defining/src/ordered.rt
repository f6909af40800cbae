// What stands, and how much of what a define names is not there yet.
ghost use Rattle.std.specs.Prelude.{◌*◌, ◌≤◌, eqb, map, ◌≡◌};
ghost use Rattle.rules.specs.Entries.{find};
ghost use Rattle.rules.specs.Ledger.{same_pair};
ghost use Rattle.rules.specs.Lists.{present};
ghost use Rattle.rules.specs.Named.{max_numbers};
ghost use Rattle.order.specs.Keys.{keys_held};
ghost use Rattle.store.specs.Storage.{pair_of, group_of};
ghost use Rattle.defining.specs.Totals.{new_groups, new_radios, new_pairs};
ghost use Rattle.defining.specs.Tests.{InOrder};

use order::{GroupKey, Groups, RadioKey, Radios};
use rows::{GROUP_WORDS, PAIR_WORDS};
use store::places::{place, stands};

// The groups and pairs in use, each in order.
#[derive(Clone, Copy)]
pub struct Ordered<'a> {
    pub groups: &'a [[u64; GROUP_WORDS]],
    pub pairs: &'a [[u64; PAIR_WORDS]],
    ghost in_order: { InOrder groups.now pairs.now },
}

impl<'a> Ordered<'a> {
    // Whether a group stands.
    fn has_group(self, group: GroupKey) -> bool
        ensures { result ≡ present (find eqb (map group_of self.entry.groups.now) group.0) }
    {
        stands(place(self.groups, group))
    }

    // Whether a pair does.
    // Stays: beside has_group, a line each over store's one place; one over both would take the order as a trait's law.
    fn has_pair(self, group: GroupKey, radio: RadioKey) -> bool
        ensures { result ≡ present (find same_pair (map pair_of self.entry.pairs.now) (group.0, radio.0)) }
    {
        stands(place(self.pairs, (group, radio)))
    }

    // How many of the named groups are not there yet.
    pub fn new_groups(self, named: &Groups) -> usize
        ensures { result ≡ new_groups (map group_of self.entry.groups.now) (keys_held named.now) }
    {
        (0..named.len())
            .filter(|j| !self.has_group(named.at(*j)))
            .count()
    }

    // How many of the radios have no pair with a group yet.
    // Stays: beside new_groups, a chain each: the keys are looked up in other rows, a radio's beside its group.
    fn new_radios(self, group: GroupKey, radios: &Radios) -> usize
        ensures { result ≡ new_radios (map pair_of self.entry.pairs.now) (keys_held radios.now) group.0 }
    {
        (0..radios.len())
            .filter(|k| !self.has_pair(group, radios.at(*k)))
            .count()
    }

    // How many of the named pairs are not there yet.
    // Stays: named and radios apart, since they are sent in list order and set in rising order.
    pub fn new_pairs(self, named: &Groups, radios: &Radios) -> usize
        requires { new_pairs (map pair_of self.pairs.now) (keys_held radios.now) (keys_held named.now) ≤ max_numbers * max_numbers }
        ensures { result ≡ new_pairs (map pair_of self.entry.pairs.now) (keys_held radios.now) (keys_held named.now) }
    {
        let mut n: usize = 0;
        for j in 0..named.len() {
            n += self.new_radios(named.at(j), radios);
        }
        n
    }
}
