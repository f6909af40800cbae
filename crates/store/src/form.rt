// The written form of the lent storage. The tests of a row are all asked, by `&` and `|`, which takes fewer instructions than one after the other.
ghost use Rattle.std.specs.Prelude.{◌≤◌, leb, map, length, get_or, take, true, ◌≡◌};
ghost use Rattle.rules.specs.Lists.{any};
ghost use Rattle.rules.specs.Mark.{timed};
ghost use Rattle.rules.specs.Parameters.{bad_parameters};
ghost use Rattle.rules.specs.Written.{max_owners, good_owners, good_mark};
ghost use Rattle.rows.specs.Layout.{max_letters, name_length, owner_count};
ghost use Rattle.store.specs.Form.{tidy, roomy, rising_keys, good_row, key_in, good_groups, good_next, good_pairs, is_written, Sound};
ghost use Rattle.store.specs.Lists.{Plain};
ghost use Rattle.store.specs.Storage.{placing, pair_of, pair_row, group_of, group_row, group_count, pair_count};

use rows::{
    BROADCAST_WORD, CALL_WORD, CLASS_WORD, FIRST_LETTER, FIRST_OWNER, GROUP_COUNT, GROUP_WORDS,
    HEAD_WORDS, KEY_WORD, LEAVING, LEAVING_UNHEARD, LIFETIME_WORD, MAX_GROUPS, MAX_LETTERS,
    MAX_OWNERS, MAX_PAIRS, NAME_LENGTH, OWNER_COUNT, PAIR_COUNT, PAIR_GROUP, PAIR_RADIO,
    PAIR_STATE, PAIR_TICKS, PAIR_WORDS, REFERENCE_WORD, T1, TEMPORARY_WORD, WAITING, lesser,
};

// The first key that is above two parts of 24 bits.
const KEY_LIMIT: u64 = 0x1_0000_0000_0000;

// Whether a word of a list is at least `bound`.
fn large(list: &[u64], bound: u64) -> bool
    ensures { result ≡ any (leb bound) list.now }
{
    list.iter().any(|&word| bound <= word)
}

// Whether the keys of a list rise, and are in range.
fn rising_keys(list: &[u64]) -> bool
    ensures { result ≡ rising_keys 0 list.now }
{
    let mut least: u64 = 0;
    for &key in list {
        let fine = least <= key && key < KEY_LIMIT;
        if !fine {
            return false;
        }
        least = key + 1;
    }
    true
}

// Whether a parameter of a group is out of its range.
fn bad_parameters(row: &[u64; GROUP_WORDS]) -> bool
    requires { get_or row.now name_length 0 ≤ max_letters }
    ensures { result ≡ bad_parameters (group_of row.now).1.parameters }
{
    let words = &row[..];
    let end = FIRST_LETTER + row[NAME_LENGTH] as usize;
    (8 < row[REFERENCE_WORD])
        | (2 < row[CALL_WORD])
        | (2 < row[BROADCAST_WORD])
        | large(&words[FIRST_LETTER..end], 256)
        | (8 < row[CLASS_WORD])
        | (4 < row[LIFETIME_WORD])
        | (8 < row[TEMPORARY_WORD])
}

// Whether a group has owners, within their room, in range and rising.
fn good_owners(row: &[u64; GROUP_WORDS]) -> bool
    requires { get_or row.now owner_count 0 ≤ max_owners }
    ensures { result ≡ good_owners placing (group_of row.now).1.owners }
{
    let words = &row[..];
    let count = row[OWNER_COUNT];
    let end = FIRST_OWNER + count as usize;
    (0 < count) & rising_keys(&words[FIRST_OWNER..end])
}

// Whether the words past the counts are 0; it is then the row of its group.
fn blank_ends(row: &[u64; GROUP_WORDS]) -> bool
    requires { (get_or row.now name_length 0 ≤ max_letters) × (get_or row.now owner_count 0 ≤ max_owners) }
    ensures { (result ≡ tidy row.now) × (result ≡ true → group_row (group_of row.now) ≡ row.now) }
{
    let words = &row[..];
    let name_end = FIRST_LETTER + row[NAME_LENGTH] as usize;
    let owners_end = FIRST_OWNER + row[OWNER_COUNT] as usize;
    !large(&words[name_end..OWNER_COUNT], 1) & !large(&words[owners_end..GROUP_WORDS], 1)
}

// Whether a group's row is in its form; it is then the row of its group.
fn group_ok(row: &[u64; GROUP_WORDS]) -> bool
    ensures { (result ≡ good_row row.now) × (result ≡ true → group_row (group_of row.now) ≡ row.now) }
{
    let counted = row[NAME_LENGTH] <= MAX_LETTERS as u64 && row[OWNER_COUNT] <= MAX_OWNERS as u64;
    if !counted {
        return false;
    }
    blank_ends(row) & !(KEY_LIMIT <= row[KEY_WORD]) & good_owners(row) & !bad_parameters(row)
}

// Whether every group is in its form, and they rise.
fn groups_ok(groups: &[[u64; GROUP_WORDS]]) -> bool
    ensures { (result ≡ good_groups 0 groups.now) × (result ≡ true → Plain group_of group_row (length groups.now) groups.now) }
{
    let mut least: u64 = 0;
    for row in groups {
        let fine = least <= row[KEY_WORD] && group_ok(row);
        if !fine {
            return false;
        }
        least = row[KEY_WORD] + 1;
    }
    true
}

// Whether a pair of this state is under T1.
pub fn timed(state: u64) -> bool
    ensures { result ≡ timed state }
{
    (state == WAITING) | (state == LEAVING)
}

// Whether a mark is in its range.
fn mark_ok(row: [u64; PAIR_WORDS]) -> bool
    ensures { result ≡ good_mark (pair_of row).1 }
{
    if timed(row[PAIR_STATE]) {
        return row[PAIR_TICKS] < T1;
    }
    (row[PAIR_STATE] <= LEAVING_UNHEARD) & (row[PAIR_TICKS] == 0)
}

// Whether a pair of the group at hand is in its form, its radio none below `least`; its row is the row of the pair.
fn pair_ok(row: [u64; PAIR_WORDS], least: u64) -> bool
    ensures { (result ≡ good_next least (pair_of row)) × (pair_row (pair_of row) ≡ row) }
{
    (least <= row[PAIR_RADIO]) & (row[PAIR_RADIO] < KEY_LIMIT) & mark_ok(row)
}

// Whether every pair is in its form and stands in its group's stretch, the stretches as the groups: a turn goes on by a pair or by a group.
fn pairs_ok(groups: &[[u64; GROUP_WORDS]], pairs: &[[u64; PAIR_WORDS]]) -> bool
    ensures { (result ≡ good_pairs (map key_in groups.now) 0 (map pair_of pairs.now))
        × (result ≡ true → Plain pair_of pair_row (length pairs.now) pairs.now) }
{
    let mut group: usize = 0;
    let mut least: u64 = 0;
    let mut i: usize = 0;
    // Stays: a turn goes on by a pair or by a group; a `for` over the pairs would hold a second loop over the groups that are passed.
    while i < pairs.len() {
        if group == groups.len() {
            return false;
        }
        let row = pairs[i];
        if groups[group][KEY_WORD] != row[PAIR_GROUP] {
            group += 1;
            least = 0;
        } else {
            if !pair_ok(row, least) {
                return false;
            }
            least = row[PAIR_RADIO] + 1;
            i += 1;
        }
    }
    true
}

// The rows in use: as many as a word of the head says, and no more than there are.
fn used<'a, R>(head: &[u64], word: usize, rows: &'a [R]) -> &'a [R]
    ensures { result.now ≡ take (get_or head.now word 0) rows.now }
{
    let count = head.get(word).map_or(0, |count| *count as usize);
    &rows[..lesser(count, rows.len())]
}

// What is lent for a ledger, to be read: its head, and room for groups and for pairs.
#[derive(Clone, Copy)]
pub struct Lent<'a> {
    pub head: &'a [u64],
    pub groups: &'a [[u64; GROUP_WORDS]],
    pub pairs: &'a [[u64; PAIR_WORDS]],
}

impl<'a> Lent<'a> {
    ghost use Rattle.store.specs.Lent.{contents_of};

    // Whether the space asked for is lent.
    pub fn roomy(self) -> bool
        ensures { result ≡ roomy (contents_of self.entry) }
    {
        (HEAD_WORDS <= self.head.len())
            && (MAX_GROUPS <= self.groups.len())
            && (MAX_PAIRS <= self.pairs.len())
    }

    // The rows of the groups in use.
    // Stays beside pair_rows: another field, of rows of another size; what is alike is `used`.
    pub fn group_rows(self) -> &'a [[u64; GROUP_WORDS]]
        ensures { result.now ≡ take (group_count (contents_of self.entry)) self.entry.groups.now }
    {
        used(self.head, GROUP_COUNT, self.groups)
    }

    // The rows of the pairs in use.
    pub fn pair_rows(self) -> &'a [[u64; PAIR_WORDS]]
        ensures { result.now ≡ take (pair_count (contents_of self.entry)) self.entry.pairs.now }
    {
        used(self.head, PAIR_COUNT, self.pairs)
    }

    // Whether the lent ledger is in its written form.
    pub fn written(self) -> bool
        ensures { (result ≡ is_written (contents_of self.entry))
            × (result ≡ true → Sound (contents_of self.entry)) }
    {
        if !self.roomy() {
            return false;
        }
        let within = (self.head[GROUP_COUNT] <= MAX_GROUPS as u64)
            & (self.head[PAIR_COUNT] <= MAX_PAIRS as u64);
        if !within {
            return false;
        }
        let groups = self.group_rows();
        groups_ok(groups) && pairs_ok(groups, self.pair_rows())
    }
}
