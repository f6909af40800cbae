// DEASSIGN, table 25.
use layout::DeassignPlaces;

pub const GROUPS: usize = 0;

pub const O_BIT: usize = 41;

pub const ACKNOWLEDGEMENT_GIVEN: usize = 42;

pub const ACKNOWLEDGEMENT: usize = 43;

// The same, by their names in the table.
pub const NAMES: DeassignPlaces = DeassignPlaces {
    groups: GROUPS,
    o_bit: O_BIT,
    acknowledgement_given: ACKNOWLEDGEMENT_GIVEN,
    acknowledgement: ACKNOWLEDGEMENT,
};
