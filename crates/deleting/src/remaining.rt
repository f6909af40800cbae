// What a delete leaves of groups and pairs.
ghost use Rattle.std.specs.Prelude.{◌≤◌, length, ◌≡◌};
ghost use Rattle.store.specs.Lists.{Fills, Plain};
ghost use Rattle.store.specs.Storage.{pair_row, pairs_of, group_of, group_row, groups_of};
ghost use Rattle.deleting.specs.Deassigned.{remaining};
ghost use Rattle.deleting.specs.Deletes.{parting, groups_left, pairs_left, named, listed};

use crate::asked::Asked;
use rows::{GROUP_WORDS, KEY_WORD, PAIR_WORDS};
use turning::{Turn, turn_pairs};

// The groups that go are taken out, the others close up in their order; their count is returned.
// Stays: a slice and a count, since what comes back is the new count, and delete promises what all rows that are lent hold then.
fn remove_groups(groups: &mut [[u64; GROUP_WORDS]], count: usize, gone: &[u64]) -> usize
    requires { (count ≤ length groups.old) × Plain group_of group_row count groups.old }
    ensures { Fills group_row (remaining gone.now (groups_of count groups.old))
        groups.old groups.new result }
{
    let mut kept: usize = 0;
    // Stays: two places of one slice, which no iterator lends both.
    for i in 0..count {
        let row = groups[i];
        if !gone.contains(&row[KEY_WORD]) {
            groups[kept] = row;
            kept += 1;
        }
    }
    kept
}

// The groups that a delete leaves; their count is returned.
// Stays: a slice and a count, as in remove_groups.
pub fn delete_groups(groups: &mut [[u64; GROUP_WORDS]], count: usize, asked: &Asked) -> usize
    requires { (count ≤ length groups.old) × Plain group_of group_row count groups.old }
    ensures { Fills group_row (groups_left (named asked.now) asked.now.remove (groups_of count groups.old))
        groups.old groups.new result }
{
    if !asked.remove {
        return count;
    }
    remove_groups(groups, count, asked.groups.as_slice())
}

// What becomes of the pairs that a delete deassigns.
fn parting(remove: bool, acknowledgement: bool) -> Turn
    ensures { result ≡ parting remove acknowledgement }
{
    if !remove && acknowledgement {
        return Turn::Leave;
    }
    Turn::Remove
}

// The pairs that a delete leaves; their count is returned.
// Stays: a slice and a count, as in remove_groups.
pub fn delete_pairs(
    pairs: &mut [[u64; PAIR_WORDS]],
    count: usize,
    asked: &Asked,
    acknowledgement: bool,
) -> usize
    ensures { Fills pair_row (pairs_left (named asked.now) asked.now.remove (listed asked.now) acknowledgement (pairs_of count pairs.old))
        pairs.old pairs.new result }
{
    let turn = parting(asked.remove, acknowledgement);
    let radios = if asked.remove {
        None
    } else {
        asked.radios.as_ref()
    };
    turn_pairs(pairs, count, turn, &asked.groups, radios)
}
