#![tactic(auto)]

// The orders that only reply: an empty ledger, a radio's answer, a tick.
ghost use Rattle.std.specs.Prelude.{◌≤◌, ◌<◌, length, get_or, [], ◌≡◌};
ghost use Rattle.rules.specs.Mark.{open?, answered};
ghost use Rattle.rules.specs.Order.{tick};
ghost use Rattle.order.specs.Steps.{answer_step};
ghost use Rattle.store.specs.Lent.{contents_of};
ghost use Rattle.store.specs.Lists.{Fills, Plain};
ghost use Rattle.store.specs.Storage.{contents, pair_of, pair_row, pairs_of};
ghost use Rattle.replies.specs.Orders.{Begins, Judges, Replies};
ghost use Rattle.answering.specs.Answers.{as_mark, settled};

use order::lists::{wide_group, wide_radio};
use order::{GroupKey, Groups, Gtsi, Itsi, RadioKey};
use refusal::Refusal;
use rows::{
    CONFIRMED, GROUP_COUNT, GROUP_WORDS, LEAVING, LEAVING_UNHEARD, MAX_NUMBERS, PAIR_COUNT,
    PAIR_GROUP, PAIR_RADIO, PAIR_WORDS, UNHEARD, WAITING, WOULD_NOT_LEAVE,
};
use rules::AnswerKind;
use std::marker::PhantomData;
use store::form::Lent;
use store::places::{find, place, stands};
use turning::{Turn, turn_pairs};

// The most that a result can be.
// Stays: results are numbers, since any may come, and one that is none is refused as a bad order (answer-unique).
const LAST_RESULT: u64 = 4;

// The result by which a radio accepts.
const ACCEPTED: u64 = 1;

// No group, for a tick, which names none. A static lies among the program's constants: nothing is cleared at each tick.
static NO_GROUPS: Groups = Groups {
    count: 0,
    key: [0; MAX_NUMBERS],
    of: PhantomData,
};

// An empty ledger over any contents.
pub fn empty(
    head: &mut [u64],
    groups: &[[u64; GROUP_WORDS]],
    pairs: &[[u64; PAIR_WORDS]],
) -> Result<(), Refusal>
    ensures { Begins (contents head.old groups.now pairs.now)
        (contents head.new groups.now pairs.now) result }
{
    let lent = Lent {
        head,
        groups,
        pairs,
    };
    if !lent.roomy() {
        return Err(Refusal::NotWritten);
    }
    head[GROUP_COUNT] = 0;
    head[PAIR_COUNT] = 0;
    Ok(())
}

// One tick: every waiting or leaving pair counts one.
pub fn tick(
    head: &[u64],
    groups: &[[u64; GROUP_WORDS]],
    pairs: &mut [[u64; PAIR_WORDS]],
) -> Result<(), Refusal>
    ensures { Replies tick (contents head.now groups.now pairs.old)
        (contents head.now groups.now pairs.new) result }
{
    let lent = Lent {
        head,
        groups,
        pairs,
    };
    if !lent.written() {
        return Err(Refusal::NotWritten);
    }
    turn_pairs(
        pairs,
        head[PAIR_COUNT] as usize,
        Turn::Tick,
        &NO_GROUPS,
        None,
    );
    Ok(())
}

// Whether a pair is found, and open for an answer of this kind.
// Stays: a match on what an answer is for, which the order brings (answer-unique).
fn is_open(kind: AnswerKind, found: Option<u64>) -> bool
    ensures { result ≡ open? kind (as_mark found) }
{
    let Some(state) = found else {
        return false;
    };
    match kind {
        AnswerKind::Assignment => matches!(state, WAITING | UNHEARD),
        AnswerKind::Deassignment => matches!(state, LEAVING | LEAVING_UNHEARD),
    }
}

// What an answer is refused with.
fn answer_fault(
    lent: Lent<'_>,
    radio: Itsi,
    group: Gtsi,
    kind: AnswerKind,
    res: u64,
) -> Result<(), Refusal>
    ensures { Judges (contents_of lent.entry) (answer_step radio group kind res) result }
{
    if !lent.written() {
        return Err(Refusal::NotWritten);
    }
    if wide_radio(radio) || wide_group(group) || res == 0 || LAST_RESULT < res {
        return Err(Refusal::BadOrder);
    }
    let group = GroupKey::from(group);
    if !stands(place(lent.group_rows(), group)) {
        return Err(Refusal::NoSuchGroup);
    }
    if !is_open(kind, find(lent.pair_rows(), group, RadioKey::from(radio))) {
        return Err(Refusal::NotOpen);
    }
    Ok(())
}

// What an answer makes of its pair: the state that it has then, or nothing.
// Stays: a match, and kind and result apart, as the order brings them (answer-unique); a struct of them would be taken apart at once.
fn outcome(kind: AnswerKind, res: u64) -> Option<u64>
    ensures { as_mark result ≡ answered kind res }
{
    match kind {
        AnswerKind::Assignment => (res == ACCEPTED).then_some(CONFIRMED),
        AnswerKind::Deassignment => (res != ACCEPTED).then_some(WOULD_NOT_LEAVE),
    }
}

// The pair at a place has its state then, with no ticks, or is taken away, and those behind it move down. The new count is returned.
// Stays: a slice and a count, since what comes back is the new count, and what `answer` promises is of all the rows that are lent.
fn settle(pairs: &mut [[u64; PAIR_WORDS]], count: usize, at: usize, left: Option<u64>) -> usize
    requires { (at < count) × (count ≤ length pairs.old) × Plain pair_of pair_row count pairs.old }
    ensures { Fills pair_row (settled (pair_of (get_or pairs.old at [])).0 (as_mark left) at (pairs_of count pairs.old))
        pairs.old pairs.new result }
{
    let Some(state) = left else {
        pairs.copy_within(at + 1..count, at);
        return count - 1;
    };
    let row = pairs[at];
    pairs[at] = [row[PAIR_GROUP], row[PAIR_RADIO], state, 0];
    count
}

// A radio's answer to its assignment or its deassignment.
pub fn answer(
    head: &mut [u64],
    groups: &[[u64; GROUP_WORDS]],
    pairs: &mut [[u64; PAIR_WORDS]],
    radio: Itsi,
    group: Gtsi,
    kind: AnswerKind,
    res: u64,
) -> Result<(), Refusal>
    ensures { Replies (answer_step radio group kind res) (contents head.old groups.now pairs.old)
        (contents head.new groups.now pairs.new) result }
{
    let lent = Lent {
        head,
        groups,
        pairs,
    };
    answer_fault(lent, radio, group, kind, res)?;
    let pair = (GroupKey::from(group), RadioKey::from(radio));
    let Ok(at) = place(lent.pair_rows(), pair) else {
        unreachable!()
    };
    let count = head[PAIR_COUNT] as usize;
    head[PAIR_COUNT] = settle(pairs, count, at, outcome(kind, res)) as u64;
    Ok(())
}
