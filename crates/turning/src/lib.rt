#![tactic(auto)]

// Turning the pairs: each is changed in its place or taken out, and those that stay close up.
ghost use Rattle.std.specs.Prelude.{option_map, ◌≡◌, ◌&&◌};
ghost use Rattle.rules.specs.Entries.{alter};
ghost use Rattle.rules.specs.Mark.{expired, ticked};
ghost use Rattle.order.specs.Keys.{keys_held};
ghost use Rattle.store.specs.Lists.{Fills};
ghost use Rattle.store.specs.Storage.{pair_of, pair_row, pairs_of};
ghost use Rattle.rules.specs.Lists.{mem};
ghost use Rattle.turning.specs.Turns.{listed, turned, row_of, turn_of};

use order::lists::member;
use order::{Groups, Radios};
use rows::{
    LEAVING, LEAVING_UNHEARD, PAIR_GROUP, PAIR_RADIO, PAIR_STATE, PAIR_TICKS, PAIR_WORDS, T1,
    UNHEARD, lesser,
};
use store::form::timed;

// What becomes of the pairs: a tick, or those that an order names are taken away, or are leaving.
// Stays: turn-pairs-unique wants a determined turn, and what a closure promises does not determine its answer.
#[derive(Clone, Copy)]
pub enum Turn {
    Tick,
    Remove,
    Leave,
}

// The last tick that a pair under T1 counts.
const LAST_TICK: u64 = T1 - 1;

// The state of a pair after T1.
fn expired(state: u64) -> u64
    ensures { result ≡ expired state }
{
    if state == LEAVING {
        return LEAVING_UNHEARD;
    }
    UNHEARD
}

// A pair under T1 counts one; at its 30th tick it is unheard.
fn ticked_row(row: [u64; PAIR_WORDS]) -> [u64; PAIR_WORDS]
    ensures { result ≡ pair_row ((pair_of row).0, ticked (pair_of row).1) }
{
    let state = row[PAIR_STATE];
    if !timed(state) {
        return row;
    }
    if LAST_TICK <= row[PAIR_TICKS] {
        return [row[PAIR_GROUP], row[PAIR_RADIO], expired(state), 0];
    }
    [row[PAIR_GROUP], row[PAIR_RADIO], state, row[PAIR_TICKS] + 1]
}

// The groups that an order names, and whether the last that was sought is one: the pairs of a group mostly stand together.
// Stays: `named` tells of the group beside it, and is no way out.
#[derive(Clone, Copy)]
struct Sought<'a> {
    groups: &'a [u64],
    group: u64,
    named: bool,
    ghost known: { named ≡ mem group groups.now },
}

impl<'a> Sought<'a> {
    // The same groups, and whether this one is among them.
    fn seek(self, group: u64) -> Sought<'a>
        ensures { (result.groups ≡ self.entry.groups) × (result.group ≡ group) }
    {
        if group == self.group {
            return self;
        }
        Sought {
            groups: self.groups,
            group,
            named: member(self.groups, group),
        }
    }
}

// Whether a radio is listed, or none are.
fn is_listed(radios: Option<&[u64]>, radio: u64) -> bool
    ensures { result ≡ listed (option_map (λ r. r.now) radios.entry) radio }
{
    match radios {
        Some(radios) => member(radios, radio),
        None => true,
    }
}

// The row of a pair after a turn, where it stays; a pair that the order names and that does not go is leaving, from 0 ticks on.
// Stays: by Turn, as turn-pairs-unique wants a determined turn.
fn turned(
    turn: Turn,
    group_named: bool,
    radios: Option<&[u64]>,
    row: [u64; PAIR_WORDS],
) -> Option<[u64; PAIR_WORDS]>
    ensures { result ≡ row_of (pair_of row).0
        (turned turn (group_named && listed (option_map (λ r. r.now) radios.entry) (pair_of row).0.1) (pair_of row).1) }
{
    match turn {
        Turn::Tick => Some(ticked_row(row)),
        Turn::Remove if group_named && is_listed(radios, row[PAIR_RADIO]) => None,
        Turn::Leave if group_named && is_listed(radios, row[PAIR_RADIO]) => {
            Some([row[PAIR_GROUP], row[PAIR_RADIO], LEAVING, 0])
        }
        Turn::Remove | Turn::Leave => Some(row),
    }
}

// The words of the radios, where any are listed.
fn words_of(radios: Option<&Radios>) -> Option<&[u64]>
    ensures { option_map (λ r. r.now) result ≡ option_map (λ r. keys_held r.now) radios.entry }
{
    radios.map(|list| list.as_slice())
}

// Each pair is changed in its place or taken out; those that stay close up in their order, and their count is returned.
// Stays: a slice and a count, as turn-pairs-unique speaks of all that is lent, for any count. Turn beside the lists that a tick
// does not look at: a case that held them would be made anew for each of two cases, and turn_of, under turn-pairs-unique, takes them apart.
pub fn turn_pairs(
    pairs: &mut [[u64; PAIR_WORDS]],
    count: usize,
    turn: Turn,
    groups: &Groups,
    radios: Option<&Radios>,
) -> usize
    ensures { Fills pair_row (alter (turn_of turn (keys_held groups.now) (option_map (λ r. keys_held r.now) radios.entry)) (pairs_of count pairs.old))
        pairs.old pairs.new result }
{
    let listed = words_of(radios);
    let named = groups.as_slice();
    let mut sought = Sought {
        groups: named,
        group: 0,
        named: member(named, 0),
    };
    let mut kept: usize = 0;
    // Stays: two places of one slice, which no iterator lends both.
    for i in 0..lesser(count, pairs.len()) {
        let row = pairs[i];
        sought = sought.seek(row[PAIR_GROUP]);
        if let Some(next) = turned(turn, sought.named, listed, row) {
            pairs[kept] = next;
            kept += 1;
        }
    }
    kept
}
