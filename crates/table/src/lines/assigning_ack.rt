// ASSIGNING-ACK, table 24.
use super::{BIT, NUMBERS, YES_NO};
use crate::place::assigning_ack::*;
use layout::Shape::{Ending, Nothing, Number};
use layout::When::{All, Always, Is};
use layout::{Element, When};

// After O-bit 1.
const O: u8 = O_BIT as u8;

const OPTION: When = Is(O, 1);

pub static TABLE: [Element; 7] = [
    Element(Always, NUMBERS),
    Element(Always, Number(2)),
    Element(Always, BIT),
    Element(OPTION, BIT),
    Element(All(O, O, ATTACHMENT_GIVEN as u8, 1), YES_NO),
    Element(OPTION, Ending),
    Element(OPTION, Nothing(O)),
];
