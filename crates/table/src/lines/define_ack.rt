// DEFINE-ACK, table 20.
use super::{BIT, NUMBERS, YES_NO};
use crate::place::YES;
use crate::place::define_ack::*;
use layout::Shape::{Ending, Nothing, Number};
use layout::When::{Always, Is};
use layout::{Element, When};

// After O-bit 1.
const O: u8 = O_BIT as u8;

const OPTION: When = Is(O, 1);

pub static TABLE: [Element; 7] = [
    Element(Always, YES_NO),
    Element(Is(CALL_RELATED as u8, YES as u8), Number(14)),
    Element(Always, NUMBERS),
    Element(Always, Number(4)),
    Element(Always, BIT),
    Element(OPTION, Ending),
    Element(OPTION, Nothing(O)),
];
