// The radios that a delete deassigns in a group.
ghost use Rattle.std.specs.Prelude.{◌+◌, ◌≤◌, length, map, ◌≡◌};
ghost use Rattle.std.proofs.Math.Seq.{paste};
ghost use Rattle.rules.specs.Entries.{find};
ghost use Rattle.rules.specs.Ledger.{same_pair, radios_of};
ghost use Rattle.rules.specs.Lists.{present};
ghost use Rattle.order.specs.Keys.{keys_held};
ghost use Rattle.store.specs.Storage.{pair_of};
ghost use Rattle.deleting.specs.Deassigned.{among, deassigned, Stretches, deassign_rows, radio_in};
ghost use Rattle.deleting.specs.Deletes.{listed};

use crate::asked::Asked;
use order::{GroupKey, RadioKey, Radios};
use rows::{ORDER_WORDS, PAIR_RADIO, PAIR_WORDS};
use sending::{DEASSIGN, order_row};
use store::places::{place, stands, stretch_of};

// The pairs that stand, a stretch a group.
#[derive(Clone, Copy)]
pub struct Pairs<'a> {
    pub rows: &'a [[u64; PAIR_WORDS]],
    ghost stretches: { Stretches rows.now },
}

// A deassign order to the radio of each row, from place `at` on.
// Stays: out and at apart, here and below, since out is lent anew to each call and at moves on between them.
fn push_rows(rows: &[[u64; PAIR_WORDS]], group: GroupKey, out: &mut [[u64; ORDER_WORDS]], at: usize)
    requires { at + length rows.now ≤ length out.old }
    ensures { out.new ≡ paste out.old at (deassign_rows group.0 (map radio_in rows.now)) (length rows.now) }
{
    // Stays: by index, since behind a zip of iter_mut a proof knows the slice's length and no element.
    for (i, row) in rows.iter().enumerate() {
        out[at + i] = order_row(DEASSIGN, RadioKey(row[PAIR_RADIO]), group);
    }
}

impl<'a> Pairs<'a> {
    // Whether a group has a radio.
    // Stays: has_pair of a define says the same of what it holds; each stands on its own struct's order, and store's rows may be any.
    fn has(self, group: GroupKey, radio: RadioKey) -> bool
        ensures { result ≡ present (find same_pair (map pair_of self.entry.rows.now) (group.0, radio.0)) }
    {
        stands(place(self.rows, (group, radio)))
    }

    // How many radios a group has.
    fn count(self, group: GroupKey) -> usize
        ensures { result ≡ length (radios_of group.0 (map pair_of self.entry.rows.now)) }
    {
        let stretch = stretch_of(self.rows, group);
        stretch.to - stretch.from
    }

    // How many radios of a list a group has.
    fn count_among(self, group: GroupKey, radios: &Radios) -> usize
        ensures { result ≡ length (among (map pair_of self.entry.rows.now) group.0 (keys_held radios.now)) }
    {
        (0..radios.len())
            .filter(|k| self.has(group, radios.at(*k)))
            .count()
    }

    // How many radios a delete deassigns in a group.
    pub fn count_deassigned(self, group: GroupKey, asked: &Asked) -> usize
        ensures { result ≡ length (deassigned asked.now.deassign (listed asked.now) (map pair_of self.entry.rows.now) group.0) }
    {
        if !asked.deassign {
            return 0;
        }
        match &asked.radios {
            Some(radios) => self.count_among(group, radios),
            None => self.count(group),
        }
    }

    // A deassign order to each radio of a group, from place `at` on; how many they are.
    fn push_all(self, group: GroupKey, out: &mut [[u64; ORDER_WORDS]], at: usize) -> usize
        requires { at + length (radios_of group.0 (map pair_of self.rows.now)) ≤ length out.old }
        ensures { (result ≡ length (radios_of group.0 (map pair_of self.entry.rows.now)))
            × (out.new ≡ paste out.old at (deassign_rows group.0 (radios_of group.0 (map pair_of self.entry.rows.now))) result) }
    {
        let stretch = stretch_of(self.rows, group);
        let rows = &self.rows[stretch.from..stretch.to];
        push_rows(rows, group, out, at);
        rows.len()
    }

    // A deassign order to each radio of a list that a group has, from place `at` on; how many they are.
    fn push_among(
        self,
        group: GroupKey,
        radios: &Radios,
        out: &mut [[u64; ORDER_WORDS]],
        at: usize,
    ) -> usize
        requires { at + length (among (map pair_of self.rows.now) group.0 (keys_held radios.now)) ≤ length out.old }
        ensures { (result ≡ length (among (map pair_of self.entry.rows.now) group.0 (keys_held radios.now)))
            × (out.new ≡ paste out.old at (deassign_rows group.0 (among (map pair_of self.entry.rows.now) group.0 (keys_held radios.now))) result) }
    {
        let mut n: usize = 0;
        for k in 0..radios.len() {
            let radio = radios.at(k);
            if self.has(group, radio) {
                out[at + n] = order_row(DEASSIGN, radio, group);
                n += 1;
            }
        }
        n
    }

    // Deassign orders to the radios that a delete deassigns in a group, from place `at` on; how many they are.
    pub fn push_deassigned(
        self,
        group: GroupKey,
        asked: &Asked,
        out: &mut [[u64; ORDER_WORDS]],
        at: usize,
    ) -> usize
        requires { at + length (deassigned asked.now.deassign (listed asked.now) (map pair_of self.rows.now) group.0) ≤ length out.old }
        ensures { (result ≡ length (deassigned asked.now.deassign (listed asked.now) (map pair_of self.entry.rows.now) group.0))
            × (out.new ≡ paste out.old at
            (deassign_rows group.0 (deassigned asked.now.deassign (listed asked.now) (map pair_of self.entry.rows.now) group.0)) result) }
    {
        if !asked.deassign {
            return 0;
        }
        match &asked.radios {
            Some(radios) => self.push_among(group, radios, out, at),
            None => self.push_all(group, out, at),
        }
    }
}
