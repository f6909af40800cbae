// CANCEL-ACK, table 34.
use super::{BIT, YES_NO};
use crate::place::cancel_ack::*;
use crate::place::{NO, YES};
use layout::Element;
use layout::Shape::{Identity, Number};
use layout::When::{Always, Is};

pub static TABLE: [Element; 4] = [
    Element(Always, YES_NO),
    Element(Is(CALL_RELATED as u8, YES as u8), Number(14)),
    Element(Is(CALL_RELATED as u8, NO as u8), Identity),
    Element(Always, BIT),
];
