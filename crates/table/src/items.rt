// The items of a list, and the places of a shape.
ghost use Rattle.std.specs.Prelude.{◌≡◌};
ghost use Rattle.layout.specs.Shape.{times, least, stride, span};

use crate::place::{IDENTITY_PLACES, NAME_PLACES, NUMBERS_PLACES};
use layout::{Items, Shape};

// What a list's count holds, at least, where item `i` is there.
// Stays: a value for each of two kinds, in two lines; a trait over them would be longer.
pub fn least_for(items: Items, i: u8) -> u32
    ensures { result ≡ least items i }
{
    let item = u32::from(i);
    match items {
        Items::Numbers => if item < 2 { item + 1 } else { item + 2 },
        Items::Letters => item + 1,
    }
}

// The places that an item takes.
// Stays: a value for each of two kinds, in two lines; a trait over them would be longer.
pub fn stride_of(items: Items) -> usize
    ensures { result ≡ stride items }
{
    match items {
        Items::Numbers => 4,
        Items::Letters => 1,
    }
}

// How many items a list has at most.
// Stays: a value for each of two kinds, in two lines; a trait over them would be longer.
pub fn times_of(items: Items) -> u8
    ensures { result ≡ times items }
{
    match items {
        Items::Numbers => 10,
        Items::Letters => 16,
    }
}

// The places that a shape takes.
#[tactic(auto, unfolding(layout::specs::Shape::span))]
pub fn places_of(shape: Shape) -> usize
    ensures { result ≡ span shape }
{
    match shape {
        Shape::Identity => IDENTITY_PLACES,
        Shape::List(Items::Numbers) => NUMBERS_PLACES,
        Shape::List(Items::Letters) => NAME_PLACES,
        Shape::Number(_)
        | Shape::Choice(_, _)
        | Shape::Ending
        | Shape::Missing(_)
        | Shape::Nothing(_) => 1,
    }
}
