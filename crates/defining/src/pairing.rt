// Pairs set by a define.
ghost use Rattle.std.specs.Prelude.{ltb, map, true, ◌≡◌};
ghost use Rattle.rules.specs.ByNumber.{below_pair};
ghost use Rattle.rules.specs.Ledger.{same_pair};
ghost use Rattle.rules.specs.Lists.{rises};
ghost use Rattle.rules.specs.Mark.{fresh};
ghost use Rattle.order.specs.Keys.{keys_held};
ghost use Rattle.order.specs.Walks.{onto};
ghost use Rattle.store.specs.Places.{place_of};
ghost use Rattle.store.specs.Storage.{pair_of, pair_row, pairs_of};
ghost use Rattle.defining.specs.Pairs.{set_pairs};
ghost use Rattle.defining.specs.Putting.{Opens, Puts, Takes};

use crate::putting::Step;
use order::{GroupKey, Groups, RadioKey, Radios};
use rows::PAIR_WORDS;
use store::places::place;

// A pair is set among those that stand as they were.
fn set_pair(
    pairs: &mut [[u64; PAIR_WORDS]],
    step: Step,
    group: GroupKey,
    radio: RadioKey,
    state: u64,
) -> Step
    requires { Opens (place_of below_pair same_pair (pairs_of step.left pairs.old) (group.0, radio.0)) step.left step.by pairs.old }
    ensures { Puts (place_of below_pair same_pair (pairs_of step.left pairs.old) (group.0, radio.0)) step.left step.by
        (pair_row ((group.0, radio.0), fresh state)) pairs.old pairs.new result }
{
    let place = place(&pairs[..step.left], (group, radio));
    step.put(pairs, place, [group.0, radio.0, state, 0])
}

// Each radio of a rising list is set with each group of a rising list, from the last pair down; `more` of them are new.
// Stays: a slice and a count, as what stands behind the pairs in use is lent too, and stays as it was.
pub fn set_all(
    pairs: &mut [[u64; PAIR_WORDS]],
    count: usize,
    more: usize,
    named: &Groups,
    radios: &Radios,
    state: u64,
)
    requires { Takes below_pair pair_of pair_row (set_pairs state (keys_held radios.now) (keys_held named.now) (pairs_of count pairs.old)) pairs.old count more
        × (rises ltb (keys_held named.now) ≡ true) × (rises ltb (keys_held radios.now) ≡ true) }
    ensures { pairs.new ≡
        onto (map pair_row (set_pairs state (keys_held radios.now) (keys_held named.now) (pairs_of count pairs.old))) pairs.old }
{
    let width = radios.len();
    let mut step = Step {
        left: count,
        by: more,
    };
    // Stays: by place, since what is put is the pairs from the place j * width + k on, which words from the end don't tell.
    for j in (0..named.len()).rev() {
        for k in (0..width).rev() {
            step = set_pair(pairs, step, named.at(j), radios.at(k), state);
        }
    }
}
