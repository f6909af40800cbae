#![tactic(auto)]

// Samples that are run. Document 01's: the shortest DEFINE and the longest; the shortest with its unused places full, which are not looked at;
// and a record without a code. Document 02's P1: of each frame that it adds a shortest, a middle one and a longest, laid out by hand.
mod deletes;
mod held;
mod radios;
mod records;

use frame::place::define::*;
use frame::place::*;
use frame::{Kind, PLACES, Record};
use held::again;
use records::Fill;
use std::io;

fn main(rt: HostRuntime) -> io::Result<()> {
    let define = Kind::Define;
    again(&rt, "shortest DEFINE", define, shortest(), shortest())?;
    again(&rt, "longest DEFINE", define, longest(), longest())?;
    again(
        &rt,
        "shortest DEFINE, unused places full",
        define,
        crowded(),
        shortest(),
    )?;
    again(
        &rt,
        "acknowledgement with another value than requested",
        define,
        unrequested(),
        unrequested(),
    )?;
    radios::assigns(&rt)?;
    radios::assigning_acks(&rt)?;
    radios::deassigns(&rt)?;
    radios::deassigning_acks(&rt)?;
    deletes::deletes(&rt)?;
    deletes::delete_acks(&rt)
}

// The shortest, with an acknowledgement that is there and is not requested: a value without a code.
fn unrequested() -> Record {
    shortest().put(O_BIT, 1).option(ACKNOWLEDGEMENT, NO)
}

// A call, no group, nothing that is optional.
fn shortest() -> Record {
    frame::blank()
        .put(CALL_RELATED, YES)
        .put(CALL_IDENTIFIER, 5)
        .put(GIVEN, NO)
}

// The shortest, with a number too large for any element in each place that it does not use.
fn crowded() -> Record {
    let full = Record {
        place: [u32::MAX; PLACES],
    };
    full.put(CALL_RELATED, YES)
        .put(CALL_IDENTIFIER, 5)
        .put(GIVEN, NO)
        .put(O_BIT, 0)
}

// All that a DEFINE can carry, each list with ten identities that have an extension, and sixteen letters.
fn longest() -> Record {
    frame::blank()
        .put(CALL_RELATED, YES)
        .put(CALL_IDENTIFIER, 5)
        .put(GIVEN, YES)
        .ten(GROUPS)
        .put(O_BIT, 1)
        .option(SET_REFERENCE, 7)
        .option(OWNERS_INCLUDED, YES)
        .ten(OWNERS)
        .option(ACKNOWLEDGED_CALL, YES)
        .option(BROADCAST, NO)
        .name(NAME)
        .option(ASSIGNMENT, YES)
        .ten(RADIOS)
        .option(ACKNOWLEDGEMENT, YES)
        .option(CLASS, 6)
        .option(LIFETIME, 3)
        .option(TEMPORARY, 5)
}
