#![tactic(auto)]

// The questions: a group's radios, and a group's owners and parameters, for one of its owners.
mod telling;

ghost use Rattle.std.specs.Prelude.{◌≤◌, length, map, ◌≡◌};
ghost use Rattle.order.specs.Numbers.{asked_group};
ghost use Rattle.order.specs.Walks.{onto};
ghost use Rattle.store.specs.Lent.{contents_of};
ghost use Rattle.store.specs.Storage.{contents, pair_of};
ghost use Rattle.replies.specs.Listing.{entry_row, Enumerates};
ghost use Rattle.replies.specs.Orders.{JudgesAsker};
ghost use Rattle.replies.specs.Showing.{show_on, shown_of};
ghost use Rattle.asking.specs.Listed.{listed, OfGroup};

use crate::telling::shown_row;
use order::keys::asked_group;
use order::lists::{wide_group, wide_radio};
use order::{GroupAsked, GroupKey, Gtsi, Itsi, RadioKey};
use refusal::Refusal;
use replies::Shown;
use rows::{ENTRY_WORDS, GROUP_WORDS, PAIR_RADIO, PAIR_WORDS};
use store::form::Lent;
use store::named::owned_by;
use store::places::{place, state_in, stretch_of};

// What a list or a show is refused with, room apart.
fn ask_fault(lent: Lent<'_>, asker: Itsi, group: Gtsi) -> Result<(), Refusal>
    ensures { JudgesAsker (contents_of lent.entry) asker group result }
{
    if !lent.written() {
        return Err(Refusal::NotWritten);
    }
    if wide_radio(asker) || wide_group(group) {
        return Err(Refusal::BadOrder);
    }
    owned_by(
        lent.group_rows(),
        GroupKey::from(group),
        RadioKey::from(asker),
    )
}

// A radio and its state, as a row of the room.
fn entry_row(radio: RadioKey, state: u64) -> [u64; ENTRY_WORDS]
    ensures { result ≡ entry_row (radio.0, state) }
{
    let number = Itsi::from(radio);
    [u64::from(number.0), u64::from(number.1), state]
}

// A group's pairs are listed at the front of the room: each radio with its state.
fn list_pairs(pairs: &[[u64; PAIR_WORDS]], group: GroupKey, out: &mut [[u64; ENTRY_WORDS]])
    requires fits { length pairs.now ≤ length out.old }
    requires mine { OfGroup group.0 pairs.now }
    ensures { out.new ≡ onto (map (λ row. entry_row (listed (pair_of row))) pairs.now) out.old }
{
    // Stays: by index, since behind a zip of iter_mut a proof knows the slice's length and no element.
    for (i, row) in pairs.iter().enumerate() {
        let radio = RadioKey(row[PAIR_RADIO]);
        if let Some(state) = state_in(*row, group, radio) {
            out[i] = entry_row(radio, state);
        }
    }
}

// A group's radios and their states, rising, for one of its owners.
pub fn list(
    head: &[u64],
    groups: &[[u64; GROUP_WORDS]],
    pairs: &[[u64; PAIR_WORDS]],
    asker: Itsi,
    asked: GroupAsked,
    out: &mut [[u64; ENTRY_WORDS]],
) -> Result<usize, Refusal>
    ensures { Enumerates (contents head.now groups.now pairs.now) asker (asked_group asker asked)
        out.old out.new result }
{
    let lent = Lent {
        head,
        groups,
        pairs,
    };
    let group = asked_group(asker, asked);
    ask_fault(lent, asker, group)?;
    let pairs = lent.pair_rows();
    let key = GroupKey::from(group);
    let stretch = stretch_of(pairs, key);
    let members = &pairs[stretch.from..stretch.to];
    if out.len() < members.len() {
        return Err(Refusal::NoRoom);
    }
    list_pairs(members, key, out);
    Ok(members.len())
}

// A group's owners and parameters, for one of its owners.
pub fn show(
    head: &[u64],
    groups: &[[u64; GROUP_WORDS]],
    pairs: &[[u64; PAIR_WORDS]],
    asker: Itsi,
    asked: GroupAsked,
) -> Result<Shown, Refusal>
    ensures { result ≡ shown_of (show_on (contents head.now groups.now pairs.now) asker (asked_group asker asked)) }
{
    let lent = Lent {
        head,
        groups,
        pairs,
    };
    let group = asked_group(asker, asked);
    ask_fault(lent, asker, group)?;
    let Ok(at) = place(lent.group_rows(), GroupKey::from(group)) else {
        unreachable!()
    };
    Ok(shown_row(&groups[at]))
}
