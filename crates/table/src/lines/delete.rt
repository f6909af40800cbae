// DELETE, table 21.
use super::{BIT, NUMBERS, REQUESTED, YES_NO};
use crate::place::YES;
use crate::place::delete::*;
use layout::Shape::{Ending, Nothing};
use layout::When::{All, Always, Is};
use layout::{Element, When};

// After O-bit 1.
const O: u8 = O_BIT as u8;

const OPTION: When = Is(O, 1);

pub static TABLE: [Element; 9] = [
    Element(Always, NUMBERS),
    Element(Always, YES_NO),
    Element(Always, YES_NO),
    Element(Always, BIT),
    // The users hang on "removed", with no P-bit of their own.
    Element(All(O, O, REMOVED as u8, YES as u8), NUMBERS),
    Element(OPTION, BIT),
    Element(All(O, O, ACKNOWLEDGEMENT_GIVEN as u8, 1), REQUESTED),
    Element(OPTION, Ending),
    Element(OPTION, Nothing(O)),
];
