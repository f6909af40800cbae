// Groups made or changed by a define.
ghost use Rattle.std.specs.Prelude.{◌≤◌, eqb, ltb, length, true, map, ◌≡◌};
ghost use Rattle.order.specs.Keys.{keys_held};
ghost use Rattle.rules.specs.Lists.{rises};
ghost use Rattle.order.specs.Walks.{onto};
ghost use Rattle.store.specs.Places.{place_of, behind_of};
ghost use Rattle.store.specs.Storage.{group_of, group_row, groups_of};
ghost use Rattle.defining.specs.Groups.{made_groups, row_for, Grows, FineOrder};
ghost use Rattle.defining.specs.Joining.{Fits};
ghost use Rattle.defining.specs.Putting.{Opens, Puts, Takes};

use crate::joining::joined;
use crate::putting::Step;
use making::made_row;
use order::{GroupKey, Groups, Owners};
use rows::GROUP_WORDS;
use store::places::place;

// The row of a group that is made anew where it stands, or made.
// Stays: order and come apart: what is known of come (Fits) is of the group at hand, what is known of order of the order alone.
fn row_for(
    groups: &[[u64; GROUP_WORDS]],
    place: Result<usize, usize>,
    group: GroupKey,
    order: [u64; GROUP_WORDS],
    come: &Owners,
) -> [u64; GROUP_WORDS]
    requires { (behind_of place ≤ length groups.now) × Fits place groups.now (keys_held come.now) }
    ensures { result ≡ row_for place group.0 order (keys_held come.now) groups.now }
{
    match place {
        Ok(i) => {
            let old = groups[i];
            made_row(group, order, old, &joined(old, come))
        }
        Err(_) => made_row(group, order, [0; GROUP_WORDS], come),
    }
}

// A group is made, or made anew, among those that stand as they were.
fn make_group(
    groups: &mut [[u64; GROUP_WORDS]],
    step: Step,
    group: GroupKey,
    order: [u64; GROUP_WORDS],
    come: &Owners,
) -> Step
    requires { Opens (place_of ltb eqb (groups_of step.left groups.old) group.0) step.left step.by groups.old
        × Fits (place_of ltb eqb (groups_of step.left groups.old) group.0) groups.old (keys_held come.now) }
    ensures { Puts (place_of ltb eqb (groups_of step.left groups.old) group.0) step.left step.by
        (row_for (place_of ltb eqb (groups_of step.left groups.old) group.0) group.0 order (keys_held come.now) groups.old)
        groups.old groups.new result }
{
    let place = place(&groups[..step.left], group);
    let row = row_for(groups, place, group, order, come);
    step.put(groups, place, row)
}

// Each group of a rising list is made, or made anew, from the last down; `more` of them are new.
// Stays: a slice and a count, as what stands behind the groups in use is lent too, and stays as it was.
pub fn make_groups(
    groups: &mut [[u64; GROUP_WORDS]],
    count: usize,
    more: usize,
    named: &Groups,
    order: [u64; GROUP_WORDS],
    come: &Owners,
)
    requires { Takes ltb group_of group_row (made_groups (keys_held come.now) (group_of order).1.parameters (keys_held named.now) (groups_of count groups.old))
        groups.old count more
        × Grows (groups_of count groups.old) (keys_held named.now) (keys_held come.now) × FineOrder order × (rises ltb (keys_held named.now) ≡ true) }
    ensures { groups.new ≡
        onto (map group_row (made_groups (keys_held come.now) (group_of order).1.parameters (keys_held named.now) (groups_of count groups.old)))
        groups.old }
{
    let mut step = Step {
        left: count,
        by: more,
    };
    // Stays: by place, since what is put is the groups from place j on; words from the end tell no place, and would be made keys again.
    for j in (0..named.len()).rev() {
        step = make_group(groups, step, named.at(j), order, come);
    }
}
