#![tactic(auto)]

// A define: the named groups are made or changed, and the listed radios assigned to them.
mod carrying;
mod grouping;
mod joining;
mod ordered;
mod outgoing;
mod pairing;
mod parts;
mod putting;
mod refusing;

ghost use Rattle.order.specs.Steps.{define_step};
ghost use Rattle.store.specs.Storage.{contents};
ghost use Rattle.replies.specs.Sending.{Sends};

use crate::carrying::carry_out;
use crate::outgoing::assign_orders;
use crate::parts::parts_of;
use crate::refusing::define_fault;
use frame::Record;
use order::Itsi;
use order::record::first_state;
use order::row::order_row;
use refusal::Refusal;
use rows::{GROUP_WORDS, ORDER_WORDS, PAIR_WORDS};
use store::form::Lent;

// A define: the named groups are made or changed, and the listed radios assigned to them.
pub fn define(
    head: &mut [u64],
    groups: &mut [[u64; GROUP_WORDS]],
    pairs: &mut [[u64; PAIR_WORDS]],
    asker: Itsi,
    values: Record,
    out: &mut [[u64; ORDER_WORDS]],
) -> Result<usize, Refusal>
    ensures { Sends (define_step asker values.place) out.old out.new
        (contents head.old groups.old pairs.old)
        (contents head.new groups.new pairs.new) result }
{
    let place = values.place;
    let parts = parts_of(asker, place);
    let lent = Lent {
        head,
        groups,
        pairs,
    };
    define_fault(lent, asker, place, &parts, out.len())?;
    let sent = assign_orders(&parts.named, &parts.radios, out);
    let row = order_row(place);
    carry_out(head, groups, pairs, &parts, row, first_state(place));
    Ok(sent)
}
