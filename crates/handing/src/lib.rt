#![tactic(auto)]

// A handover: the owners of a group become the asker and those listed.
mod refusing;

ghost use Rattle.order.specs.Steps.{handover_step};
ghost use Rattle.store.specs.Storage.{contents};
ghost use Rattle.replies.specs.Orders.{Replies};

use crate::refusing::handover_fault;
use making::made_row;
use order::keys::{group_in, owners_in};
use order::{Identity, Itsi, Numbers};
use refusal::Refusal;
use rows::{GROUP_WORDS, PAIR_WORDS};
use store::form::Lent;
use store::places::place;

// A handover: the owners of a group become the asker and those listed; its parameters and its pairs stay.
pub fn handover(
    head: &[u64],
    groups: &mut [[u64; GROUP_WORDS]],
    pairs: &[[u64; PAIR_WORDS]],
    asker: Itsi,
    group: Identity,
    owners: Numbers,
) -> Result<(), Refusal>
    ensures { Replies (handover_step asker group owners) (contents head.now groups.old pairs.now)
        (contents head.now groups.new pairs.now) result }
{
    let lent = Lent {
        head,
        groups,
        pairs,
    };
    handover_fault(lent, asker, group, owners)?;
    let key = group_in(asker, group);
    let Ok(at) = place(lent.group_rows(), key) else {
        unreachable!()
    };
    let owners = owners_in(asker, Some(owners));
    let old = groups[at];
    groups[at] = made_row(key, [0; GROUP_WORDS], old, &owners);
    Ok(())
}
