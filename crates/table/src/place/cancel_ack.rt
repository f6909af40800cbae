// CANCEL-ACK, table 34.
use layout::CancelAckPlaces;

pub const CALL_RELATED: usize = 0;

pub const CALL_IDENTIFIER: usize = 1;

pub const DEFINED_GROUP: usize = 2;

pub const RESULT: usize = 6;

// The same, by their names in the table.
pub const NAMES: CancelAckPlaces = CancelAckPlaces {
    call_related: CALL_RELATED,
    call_identifier: CALL_IDENTIFIER,
    defined_group: DEFINED_GROUP,
    result: RESULT,
};
