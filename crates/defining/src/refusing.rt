// What a define is refused with: each rule over the whole order, in the order of the law.
ghost use Rattle.std.specs.Prelude.{◌||◌, map, ◌≡◌};
ghost use Rattle.layout.specs.Frame.{judged_of};
ghost use Rattle.layout.specs.declared.Kind.TheVariants as Kind;
ghost use Rattle.rules.specs.Number.{wide_number};
ghost use Rattle.rules.specs.Recorded.{define_of};
ghost use Rattle.rules.specs.Refusals.{first, refuses};
ghost use Rattle.order.specs.Numbers.{radio_number};
ghost use Rattle.order.specs.Keys.{keys_held};
ghost use Rattle.order.specs.Steps.{define_step};
ghost use Rattle.store.specs.Lent.{contents_of};
ghost use Rattle.store.specs.Storage.{pair_of, group_of};
ghost use Rattle.replies.specs.Orders.{reply_of, Judges};
ghost use Rattle.defining.specs.Parts.{parts_of};
ghost use Rattle.defining.specs.Tests.{define_form, define_stand};

use crate::ordered::Ordered;
use crate::parts::Parts;
use frame::{Kind, PLACES};
use making::owners::any_crowded;
use order::lists::wide_radio;
use order::{Itsi, RadioKey};
use refusal::Refusal;
use rows::{MAX_GROUPS, MAX_PAIRS};
use store::Standing;
use store::form::Lent;
use store::named::any_group;
use table::place::YES;
use table::place::define::CALL_RELATED;

// Whether it is a bad order: the asker's number is too wide, or the record has no code.
fn bad_order(asker: Itsi, place: [u32; PLACES]) -> bool
    ensures { result ≡ (wide_number (radio_number asker) || refuses (judged_of Kind.Define place)) }
{
    wide_radio(asker) || frame::fault(Kind::Define, &place).is_err()
}

// What a define is refused with for its form.
fn form_fault(asker: Itsi, place: [u32; PLACES], parts: &Parts) -> Result<(), Refusal>
    requires { parts.now ≡ parts_of asker place }
    ensures { result ≡ reply_of (first (define_form (define_of (radio_number asker) place))) }
{
    if bad_order(asker, place) {
        return Err(Refusal::BadOrder);
    }
    if place[CALL_RELATED] == YES {
        return Err(Refusal::FormNotTaken);
    }
    parts.fault
}

// What a define is refused with for what stands.
fn stand_fault(
    ordered: Ordered<'_>,
    asker: RadioKey,
    parts: &Parts,
    room: usize,
) -> Result<(), Refusal>
    ensures { result ≡ reply_of (first (define_stand (map group_of ordered.entry.groups.now) (map pair_of ordered.entry.pairs.now)
        asker (keys_held parts.now.named) (keys_held parts.now.owners) (keys_held parts.now.radios) room)) }
{
    let named = &parts.named;
    if any_group(ordered.groups, named, asker, Standing::Taken) {
        return Err(Refusal::NotOwner);
    }
    if any_crowded(ordered.groups, named, &parts.owners) {
        return Err(Refusal::TooManyOwners);
    }
    // The totals, and so the orders, are no more than the lists have places for.
    let orders = named.len() * parts.radios.len();
    let group_total = ordered.groups.len() + ordered.new_groups(named);
    let pair_total = ordered.pairs.len() + ordered.new_pairs(named, &parts.radios);
    let full = (MAX_GROUPS < group_total) | (MAX_PAIRS < pair_total);
    if full {
        return Err(Refusal::Full);
    }
    if room < orders {
        return Err(Refusal::NoRoom);
    }
    Ok(())
}

// What a define is refused with; its lists have been read.
pub fn define_fault(
    lent: Lent<'_>,
    asker: Itsi,
    place: [u32; PLACES],
    parts: &Parts,
    room: usize,
) -> Result<(), Refusal>
    requires { parts.now ≡ parts_of asker place }
    ensures { Judges (contents_of lent.entry) (define_step asker place room) result }
{
    if !lent.written() {
        return Err(Refusal::NotWritten);
    }
    form_fault(asker, place, parts)?;
    let ordered = Ordered {
        groups: lent.group_rows(),
        pairs: lent.pair_rows(),
    };
    stand_fault(ordered, RadioKey::from(asker), parts, room)
}
