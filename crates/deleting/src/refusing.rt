// What a delete is refused with: each rule over the whole order, in the order of the law.
ghost use Rattle.std.specs.Prelude.{ltb, Bool, true, map, ◌≡◌};
ghost use Rattle.rules.specs.ByNumber.{lower};
ghost use Rattle.rules.specs.Lists.{rises};
ghost use Rattle.rules.specs.Refusals.{first};
ghost use Rattle.order.specs.Steps.{delete_step};
ghost use Rattle.store.specs.Lent.{contents_of};
ghost use Rattle.store.specs.Storage.{pair_of, group_of};
ghost use Rattle.replies.specs.Orders.{reply_of, Judges};
ghost use Rattle.deleting.specs.Deletes.{asked, named, listed, form_tests, stand_tests};

use crate::asked::Asked;
use crate::deassigned::Pairs;
use order::lists::{bad_list, untaken, wide_radio};
use order::ranges::{bad_range, too_many};
use order::{Itsi, Numbers, RadioKey};
use refusal::Refusal;
use rows::GROUP_WORDS;
use store::Standing;
use store::form::Lent;
use store::named::any_group;

// What a delete is refused with for its form.
fn form_fault(
    asker: Itsi,
    groups: Numbers,
    deassign: bool,
    radios: Option<Numbers>,
) -> Result<(), Refusal>
    ensures { result ≡ reply_of (first (form_tests asker groups deassign radios)) }
{
    let groups = Some(groups);
    if wide_radio(asker)
        || bad_list(groups)
        || bad_list(radios)
        || (radios.is_some() && !deassign)
    {
        return Err(Refusal::BadOrder);
    }
    if untaken(groups) || untaken(radios) {
        return Err(Refusal::FormNotTaken);
    }
    if bad_range(asker, groups) || bad_range(asker, radios) {
        return Err(Refusal::BadRange);
    }
    if too_many(asker, groups) || too_many(asker, radios) {
        return Err(Refusal::TooManyNumbers);
    }
    Ok(())
}

// What a delete is refused with for what stands.
fn stand_fault(
    groups: &[[u64; GROUP_WORDS]],
    pairs: Pairs<'_>,
    asker: RadioKey,
    asked: &Asked,
    room: usize,
) -> Result<(), Refusal>
    requires { rises (lower ltb) (map group_of groups.now) ≡ true }
    ensures { result ≡ reply_of (first (stand_tests (map group_of groups.now) (map pair_of pairs.entry.rows.now)
        asker.0 (named asked.now) asked.now.remove asked.now.deassign (listed asked.now) room)) }
{
    if any_group(groups, &asked.groups, asker, Standing::Missing) {
        return Err(Refusal::NoSuchGroup);
    }
    if any_group(groups, &asked.groups, asker, Standing::Foreign) {
        return Err(Refusal::NotOwner);
    }
    if !asked.remove && !asked.deassign {
        return Err(Refusal::NothingToDo);
    }
    if pairs.exceeds(asked, room) {
        return Err(Refusal::NoRoom);
    }
    Ok(())
}

// What a delete is refused with, whether it asks for acknowledgement or not; its lists have been read.
pub fn delete_fault(
    lent: Lent<'_>,
    asker: Itsi,
    groups: Numbers,
    radios: Option<Numbers>,
    asks: &Asked,
    room: usize,
) -> Result<(), Refusal>
    requires { asks.now ≡ asked asker groups asks.now.remove asks.now.deassign radios }
    ensures { (acknowledgement : Bool) → Judges (contents_of lent.entry)
        (delete_step asker groups asks.now.remove asks.now.deassign radios acknowledgement room) result }
{
    if !lent.written() {
        return Err(Refusal::NotWritten);
    }
    form_fault(asker, groups, asks.deassign, radios)?;
    let pairs = Pairs {
        rows: lent.pair_rows(),
    };
    stand_fault(lent.group_rows(), pairs, RadioKey::from(asker), asks, room)
}
