// What a define that is not refused leaves.
ghost use Rattle.std.specs.Prelude.{◌≡◌};
ghost use Rattle.order.specs.Keys.{keys_held};
ghost use Rattle.store.specs.Storage.{contents, group_of, laid};
ghost use Rattle.defining.specs.Carried.{Carries, carried};

use crate::grouping::make_groups;
use crate::ordered::Ordered;
use crate::pairing::set_all;
use crate::parts::Parts;
use rows::{GROUP_COUNT, GROUP_WORDS, PAIR_COUNT, PAIR_WORDS};
use store::form::Lent;

// The named groups are made or made anew, and the radios set with them.
pub fn carry_out(
    head: &mut [u64],
    groups: &mut [[u64; GROUP_WORDS]],
    pairs: &mut [[u64; PAIR_WORDS]],
    parts: &Parts,
    order: [u64; GROUP_WORDS],
    state: u64,
)
    requires { Carries (contents head.old groups.old pairs.old) order (keys_held parts.now.owners) (keys_held parts.now.named)
        (keys_held parts.now.radios) state }
    ensures { contents head.new groups.new pairs.new ≡
        laid (carried (keys_held parts.now.owners) (group_of order).1.parameters (keys_held parts.now.named) (keys_held parts.now.radios) state
        (contents head.old groups.old pairs.old))
        (contents head.old groups.old pairs.old) }
{
    let lent = Lent {
        head,
        groups,
        pairs,
    };
    let ordered = Ordered {
        groups: lent.group_rows(),
        pairs: lent.pair_rows(),
    };
    let more_groups = ordered.new_groups(&parts.named);
    let more_pairs = ordered.new_pairs(&parts.named, &parts.radios);
    let group_count = head[GROUP_COUNT] as usize;
    let pair_count = head[PAIR_COUNT] as usize;
    let these = parts.named.rising();
    let those = parts.radios.rising();
    let come = &parts.owners;
    make_groups(groups, group_count, more_groups, &these, order, come);
    set_all(pairs, pair_count, more_pairs, &these, &those, state);
    head[GROUP_COUNT] = (group_count + more_groups) as u64;
    head[PAIR_COUNT] = (pair_count + more_pairs) as u64;
}
