#![tactic(auto)]

// A delete: the named groups, or radios of them, go.
mod asked;
mod deassigned;
mod outgoing;
mod refusing;
mod remaining;

ghost use Rattle.order.specs.Steps.{delete_step};
ghost use Rattle.store.specs.Storage.{contents};
ghost use Rattle.replies.specs.Sending.{Sends};

use crate::deassigned::Pairs;
use crate::refusing::delete_fault;
use crate::remaining::{delete_groups, delete_pairs};
use order::{Itsi, Numbers};
use refusal::Refusal;
use rows::{GROUP_COUNT, GROUP_WORDS, ORDER_WORDS, PAIR_COUNT, PAIR_WORDS};
use store::form::Lent;

// A delete: the named groups, or radios of them, go; radios of groups that stay are leaving first, where acknowledgement is asked for.
pub fn delete(
    head: &mut [u64],
    groups: &mut [[u64; GROUP_WORDS]],
    pairs: &mut [[u64; PAIR_WORDS]],
    asker: Itsi,
    named: Numbers,
    remove: bool,
    deassign: bool,
    radios: Option<Numbers>,
    acknowledgement: bool,
    out: &mut [[u64; ORDER_WORDS]],
) -> Result<usize, Refusal>
    ensures { Sends (delete_step asker named remove deassign radios acknowledgement) out.old out.new
        (contents head.old groups.old pairs.old)
        (contents head.new groups.new pairs.new) result }
{
    let asks = asked::read(asker, named, remove, deassign, radios);
    let lent = Lent {
        head,
        groups,
        pairs,
    };
    delete_fault(lent, asker, named, radios, &asks, out.len())?;
    let stretches = Pairs {
        rows: lent.pair_rows(),
    };
    let sent = stretches.send_orders(&asks, out);
    let group_count = head[GROUP_COUNT] as usize;
    let pair_count = head[PAIR_COUNT] as usize;
    head[GROUP_COUNT] = delete_groups(groups, group_count, &asks) as u64;
    head[PAIR_COUNT] = delete_pairs(pairs, pair_count, &asks, acknowledgement) as u64;
    Ok(sent)
}
