// CANCEL, table 33.
use layout::CancelPlaces;

pub const CALL_RELATED: usize = 0;

pub const CALL_IDENTIFIER: usize = 1;

pub const DEFINED_GROUP: usize = 2;

pub const EXISTING_GROUP: usize = 6;

// The same, by their names in the table.
pub const NAMES: CancelPlaces = CancelPlaces {
    call_related: CALL_RELATED,
    call_identifier: CALL_IDENTIFIER,
    defined_group: DEFINED_GROUP,
    existing_group: EXISTING_GROUP,
};
