// DEASSIGN, table 25.
use super::{BIT, NUMBERS, REQUESTED};
use crate::place::deassign::*;
use layout::Shape::{Ending, Nothing};
use layout::When::{All, Always, Is};
use layout::{Element, When};

// After O-bit 1.
const O: u8 = O_BIT as u8;

const OPTION: When = Is(O, 1);

pub static TABLE: [Element; 6] = [
    Element(Always, NUMBERS),
    Element(Always, BIT),
    Element(OPTION, BIT),
    Element(All(O, O, ACKNOWLEDGEMENT_GIVEN as u8, 1), REQUESTED),
    Element(OPTION, Ending),
    Element(OPTION, Nothing(O)),
];
