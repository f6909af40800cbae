// DEFINE-ACK, table 20.
use layout::DefineAckPlaces;

pub const CALL_RELATED: usize = 0;

pub const CALL_IDENTIFIER: usize = 1;

pub const GROUPS: usize = 2;

pub const RESULT: usize = 43;

pub const O_BIT: usize = 44;

// The same, by their names in the table.
pub const NAMES: DefineAckPlaces = DefineAckPlaces {
    call_related: CALL_RELATED,
    call_identifier: CALL_IDENTIFIER,
    groups: GROUPS,
    result: RESULT,
    o_bit: O_BIT,
};
