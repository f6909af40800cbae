// What a handover is refused with: each rule over the whole order, in the order of the law.
ghost use Rattle.std.specs.Prelude.{◌≡◌};
ghost use Rattle.rules.specs.Refusals.{first};
ghost use Rattle.order.specs.Steps.{handover_step};
ghost use Rattle.store.specs.Lent.{contents_of};
ghost use Rattle.replies.specs.Orders.{reply_of, Judges};
ghost use Rattle.handing.specs.Tests.{form_tests};

use order::keys::group_in;
use order::lists::{bad_identity, bad_list, short, untaken, wide_radio};
use order::ranges::{bad_range, too_many_owners};
use order::{Identity, Itsi, Numbers, RadioKey};
use refusal::Refusal;
use store::form::Lent;
use store::named::owned_by;

// What a handover is refused with for its form.
// Stays: asker, group and owners apart, as a handover brings them (handover-unique); a struct of them would be taken apart at once.
fn form_fault(asker: Itsi, group: Identity, owners: Numbers) -> Result<(), Refusal>
    ensures { result ≡ reply_of (first (form_tests asker group owners)) }
{
    let owners = Some(owners);
    if wide_radio(asker) || bad_identity(group) || bad_list(owners) {
        return Err(Refusal::BadOrder);
    }
    if short(group) || untaken(owners) {
        return Err(Refusal::FormNotTaken);
    }
    if bad_range(asker, owners) {
        return Err(Refusal::BadRange);
    }
    if too_many_owners(asker, owners) {
        return Err(Refusal::TooManyNumbers);
    }
    Ok(())
}

// What a handover is refused with.
pub fn handover_fault(
    lent: Lent<'_>,
    asker: Itsi,
    group: Identity,
    owners: Numbers,
) -> Result<(), Refusal>
    ensures { Judges (contents_of lent.entry) (handover_step asker group owners) result }
{
    if !lent.written() {
        return Err(Refusal::NotWritten);
    }
    form_fault(asker, group, owners)?;
    let key = group_in(asker, group);
    owned_by(lent.group_rows(), key, RadioKey::from(asker))
}
