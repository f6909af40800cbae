// DEASSIGNING-ACK, table 26.
use layout::DeassigningAckPlaces;

pub const GROUPS: usize = 0;

pub const RESULT: usize = 41;

// The same, by their names in the table.
pub const NAMES: DeassigningAckPlaces = DeassigningAckPlaces {
    groups: GROUPS,
    result: RESULT,
};
