// ASSIGN, table 23.
use super::{BIT, NAMED, NUMBERS, REQUESTED, YES_NO};
use crate::place::assign::*;
use layout::Shape::{Ending, Nothing, Number};
use layout::When::{All, Always, Is};
use layout::{Element, When};

// After O-bit 1.
const O: u8 = O_BIT as u8;

const OPTION: When = Is(O, 1);

pub static TABLE: [Element; 20] = [
    Element(Always, NUMBERS),
    Element(Always, BIT),
    Element(OPTION, BIT),
    Element(All(O, O, ACKNOWLEDGED_CALL_GIVEN as u8, 1), YES_NO),
    Element(OPTION, BIT),
    Element(All(O, O, BROADCAST_GIVEN as u8, 1), YES_NO),
    Element(OPTION, BIT),
    Element(All(O, O, NAME_GIVEN as u8, 1), NAMED),
    Element(OPTION, BIT),
    Element(All(O, O, ACKNOWLEDGEMENT_GIVEN as u8, 1), REQUESTED),
    Element(OPTION, BIT),
    Element(All(O, O, CLASS_GIVEN as u8, 1), Number(3)),
    Element(OPTION, BIT),
    Element(All(O, O, LIFETIME_GIVEN as u8, 1), Number(2)),
    Element(OPTION, BIT),
    Element(All(O, O, TEMPORARY_GIVEN as u8, 1), Number(3)),
    Element(OPTION, BIT),
    Element(All(O, O, VISITED_EXTENSION_GIVEN as u8, 1), Number(24)),
    Element(OPTION, Ending),
    Element(OPTION, Nothing(O)),
];
