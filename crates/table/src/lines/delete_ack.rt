// DELETE-ACK, table 22.
use super::{BIT, NUMBERS};
use crate::place::delete_ack::*;
use layout::Shape::{Ending, Nothing, Number};
use layout::When::{Always, Is};
use layout::{Element, When};

// After O-bit 1.
const O: u8 = O_BIT as u8;

const OPTION: When = Is(O, 1);

pub static TABLE: [Element; 5] = [
    Element(Always, NUMBERS),
    Element(Always, Number(4)),
    Element(Always, BIT),
    Element(OPTION, Ending),
    Element(OPTION, Nothing(O)),
];
