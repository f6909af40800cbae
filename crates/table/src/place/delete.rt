// DELETE, table 21.
use layout::DeletePlaces;

pub const GROUPS: usize = 0;

pub const DELETED: usize = 41;

pub const REMOVED: usize = 42;

pub const O_BIT: usize = 43;

pub const RADIOS: usize = 44;

pub const ACKNOWLEDGEMENT_GIVEN: usize = 85;

pub const ACKNOWLEDGEMENT: usize = 86;

// The same, by their names in the table.
pub const NAMES: DeletePlaces = DeletePlaces {
    groups: GROUPS,
    deleted: DELETED,
    removed: REMOVED,
    o_bit: O_BIT,
    radios: RADIOS,
    acknowledgement_given: ACKNOWLEDGEMENT_GIVEN,
    acknowledgement: ACKNOWLEDGEMENT,
};
