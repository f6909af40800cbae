// ASSIGNING-ACK, table 24.
use layout::AssigningAckPlaces;

pub const GROUPS: usize = 0;

pub const RESULT: usize = 41;

pub const O_BIT: usize = 42;

pub const ATTACHMENT_GIVEN: usize = 43;

pub const ATTACHMENT: usize = 44;

// The same, by their names in the table.
pub const NAMES: AssigningAckPlaces = AssigningAckPlaces {
    groups: GROUPS,
    result: RESULT,
    o_bit: O_BIT,
    attachment_given: ATTACHMENT_GIVEN,
    attachment: ATTACHMENT,
};
