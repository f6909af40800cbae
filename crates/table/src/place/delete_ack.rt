// DELETE-ACK, table 22.
use layout::DeleteAckPlaces;

pub const GROUPS: usize = 0;

pub const RESULT: usize = 41;

pub const O_BIT: usize = 42;

// The same, by their names in the table.
pub const NAMES: DeleteAckPlaces = DeleteAckPlaces {
    groups: GROUPS,
    result: RESULT,
    o_bit: O_BIT,
};
