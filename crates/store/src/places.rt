// The places of groups and pairs, found by halving, and what is looked up there.
ghost use Rattle.std.specs.Prelude.{ℕ, eqb, ltb, map, Bool, ◌≡◌};
ghost use Rattle.rules.specs.ByNumber.{below_pair};
ghost use Rattle.rules.specs.Ledger.{Group, Pair, same_pair};
ghost use Rattle.rules.specs.Mark.{Mark};
ghost use Rattle.store.specs.Halving.{place_in};
ghost use Rattle.store.specs.Places.{place_of, stands_at, found_of, mark_in, stretch_of, looked_up};
ghost use Rattle.store.specs.Storage.{pair_of, group_of};

use crate::Stretch;
use order::{GroupKey, RadioKey};
use rows::{GROUP_WORDS, KEY_WORD, PAIR_GROUP, PAIR_RADIO, PAIR_STATE, PAIR_WORDS};

// A radio's key above all that stand.
const PAST_RADIOS: u64 = u64::MAX;

// A row of the ledger, looked for by its key: what it says, a number and what stands under it, and which numbers come before a key.
pub trait Row {
    type Key: Copy;

    ghost Number: { Type 0 };

    ghost Entry: { Type 0 };

    ghost item_of: { Self → Number × Entry };

    ghost number_of: { Self.Key → Number };

    ghost below: { Number → Number → Bool };

    ghost same: { Number → Number → Bool };

    // Whether it comes before this key.
    fn is_before(&self, key: Self::Key) -> bool
        ensures { result ≡ below (item_of self.now).0 (number_of key) };

    // Whether it is this key's.
    fn is_of(&self, key: Self::Key) -> bool
        ensures { result ≡ same (number_of key) (item_of self.now).0 };
}

// A group's row, by the group.
impl Row for [u64; GROUP_WORDS] {
    type Key = GroupKey;

    ghost Number = { ℕ };

    ghost Entry = { Group };

    ghost item_of = { group_of };

    ghost number_of = { λ k. k.0 };

    ghost below = { ltb };

    ghost same = { eqb };

    #[tactic(auto, unfolding(crate::specs::Storage::group_of))]
    fn is_before(&self, group: GroupKey) -> bool {
        self[KEY_WORD] < group.0
    }

    #[tactic(auto, unfolding(crate::specs::Storage::group_of))]
    fn is_of(&self, group: GroupKey) -> bool {
        group.0 == self[KEY_WORD]
    }
}

// A pair's row, by group, then radio.
impl Row for [u64; PAIR_WORDS] {
    type Key = (GroupKey, RadioKey);

    ghost Number = { Pair };

    ghost Entry = { Mark };

    ghost item_of = { pair_of };

    ghost number_of = { λ k. (k.0.0, k.1.0) };

    ghost below = { below_pair };

    ghost same = { same_pair };

    fn is_before(&self, (group, radio): (GroupKey, RadioKey)) -> bool {
        (self[PAIR_GROUP] < group.0)
            || (self[PAIR_GROUP] == group.0) && (self[PAIR_RADIO] < radio.0)
    }

    fn is_of(&self, (group, radio): (GroupKey, RadioKey)) -> bool {
        (group.0 == self[PAIR_GROUP]) && (radio.0 == self[PAIR_RADIO])
    }
}

// Whether it stands at its place.
// Stays: stands-unique speaks of it, and it names what `is_ok` means of a place.
pub fn stands(place: Result<usize, usize>) -> bool
    ensures { result ≡ stands_at place }
{
    place.is_ok()
}

// How many rows come before this key.
fn rows_before<R: Row>(rows: &[R], key: R::Key) -> usize
    ensures { result ≡ place_in R.below (map R.item_of rows.now) (R.number_of key) }
{
    let mut from: usize = 0;
    let mut left = rows.len();
    // Stays: the contract speaks of any rows, and partition_point promises nothing of those out of order.
    while 0 < left {
        let half = left / 2;
        if rows[from + half].is_before(key) {
            from += half + 1;
            left -= half + 1;
        } else {
            left = half;
        }
    }
    from
}

// The place of a key among rows: it stands there, or would come there.
pub fn place<R: Row>(rows: &[R], key: R::Key) -> Result<usize, usize>
    ensures { result ≡ place_of R.below R.same (map R.item_of rows.now) (R.number_of key) }
{
    let i = rows_before(rows, key);
    let Some(row) = rows.get(i) else {
        return Err(i);
    };
    if row.is_of(key) { Ok(i) } else { Err(i) }
}

// A group's stretch.
pub fn stretch_of(pairs: &[[u64; PAIR_WORDS]], group: GroupKey) -> Stretch
    ensures { result ≡ stretch_of (map pair_of pairs.now) group.0 }
{
    Stretch {
        from: rows_before(pairs, (group, RadioKey(0))),
        to: rows_before(pairs, (group, RadioKey(PAST_RADIOS))),
    }
}

// A row's state, where it is this pair's.
pub fn state_in(row: [u64; PAIR_WORDS], group: GroupKey, radio: RadioKey) -> Option<u64>
    ensures { result ≡ found_of (mark_in (pair_of row) (group.0, radio.0)) }
{
    row.is_of((group, radio)).then_some(row[PAIR_STATE])
}

// A pair's state, or plainly nothing.
pub fn find(pairs: &[[u64; PAIR_WORDS]], group: GroupKey, radio: RadioKey) -> Option<u64>
    ensures { result ≡ found_of (looked_up below_pair same_pair (map pair_of pairs.now) (group.0, radio.0)) }
{
    let Ok(i) = place(pairs, (group, radio)) else {
        return None;
    };
    state_in(pairs[i], group, radio)
}
