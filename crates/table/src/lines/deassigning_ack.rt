// DEASSIGNING-ACK, table 26.
use super::NUMBERS;
use layout::Element;
use layout::Shape::Number;
use layout::When::Always;

pub static TABLE: [Element; 2] = [Element(Always, NUMBERS), Element(Always, Number(4))];
