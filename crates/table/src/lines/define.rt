// DEFINE, table 19.
use super::{BIT, NAMED, NUMBERS, REQUESTED, YES_NO};
use crate::place::define::*;
use crate::place::{NO, YES};
use layout::Shape::{Ending, Missing, Nothing, Number};
use layout::When::{All, Always, Is};
use layout::{Element, When};

// After O-bit 1.
const O: u8 = O_BIT as u8;

const OPTION: When = Is(O, 1);

pub static TABLE: [Element; 30] = [
    Element(Always, YES_NO),
    Element(Is(CALL_RELATED as u8, YES as u8), Number(14)),
    Element(Always, YES_NO),
    Element(Is(CALL_RELATED as u8, NO as u8), Missing(GIVEN as u8)),
    Element(Is(GIVEN as u8, YES as u8), NUMBERS),
    Element(Always, BIT),
    Element(OPTION, BIT),
    Element(All(O, O, SET_REFERENCE_GIVEN as u8, 1), Number(3)),
    Element(OPTION, BIT),
    Element(All(O, O, OWNERS_INCLUDED_GIVEN as u8, 1), YES_NO),
    Element(
        All(
            O,
            OWNERS_INCLUDED_GIVEN as u8,
            OWNERS_INCLUDED as u8,
            YES as u8,
        ),
        NUMBERS,
    ),
    Element(OPTION, BIT),
    Element(All(O, O, ACKNOWLEDGED_CALL_GIVEN as u8, 1), YES_NO),
    Element(OPTION, BIT),
    Element(All(O, O, BROADCAST_GIVEN as u8, 1), YES_NO),
    Element(OPTION, BIT),
    Element(All(O, O, NAME_GIVEN as u8, 1), NAMED),
    Element(OPTION, BIT),
    Element(All(O, O, ASSIGNMENT_GIVEN as u8, 1), YES_NO),
    Element(
        All(O, ASSIGNMENT_GIVEN as u8, ASSIGNMENT as u8, YES as u8),
        NUMBERS,
    ),
    Element(OPTION, BIT),
    Element(All(O, O, ACKNOWLEDGEMENT_GIVEN as u8, 1), REQUESTED),
    Element(OPTION, BIT),
    Element(All(O, O, CLASS_GIVEN as u8, 1), Number(3)),
    Element(OPTION, BIT),
    Element(All(O, O, LIFETIME_GIVEN as u8, 1), Number(2)),
    Element(OPTION, BIT),
    Element(All(O, O, TEMPORARY_GIVEN as u8, 1), Number(3)),
    Element(OPTION, Ending),
    Element(OPTION, Nothing(O)),
];
