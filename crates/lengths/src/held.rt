// Records to start from, and what is told of one.
ghost use Rattle.std.specs.Prelude.{◌+◌, ◌≤◌};
ghost use Rattle.layout.specs.declared.Items.TheVariants.{Numbers};
ghost use Rattle.layout.specs.Frame.{places};
ghost use Rattle.layout.specs.Shape.{list_places};

use frame::place::*;
use frame::{Kind, PLACES, Record};
use std::io;

// A record with 1 in every place: each answer is yes and each option there, a list has one SNA, a name one letter.
pub fn ones() -> Record {
    Record {
        place: [1u32; PLACES],
    }
}

// A list with all its identities in one form. Those that its count leaves out are not looked at.
pub fn listed(mut values: Record, place: usize, count: u32, form: u32) -> Record
    requires { place + list_places Numbers ≤ places }
{
    values.place[place] = count;
    for at in (place + 1..place + NUMBERS_PLACES).step_by(IDENTITY_PLACES) {
        values.place[at] = form;
    }
    values
}

// Prints what is told of the length of a record's frame.
pub fn told(rt: &impl Print, name: &str, kind: Kind, values: Record) -> io::Result<()> {
    match frame::length(kind, &values.place) {
        Ok(bits) => println!(rt; "{name}: {bits}"),
        Err(refusal) => println!(rt; "{name}: refused with {refusal}"),
    }
}
