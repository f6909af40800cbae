// ASSIGN, table 23.
use layout::AssignPlaces;

pub const GROUPS: usize = 0;

pub const O_BIT: usize = 41;

pub const ACKNOWLEDGED_CALL_GIVEN: usize = 42;

pub const ACKNOWLEDGED_CALL: usize = 43;

pub const BROADCAST_GIVEN: usize = 44;

pub const BROADCAST: usize = 45;

pub const NAME_GIVEN: usize = 46;

pub const NAME: usize = 47;

// The letters follow their count.
pub const LETTERS: usize = NAME + 1;

pub const ACKNOWLEDGEMENT_GIVEN: usize = 64;

pub const ACKNOWLEDGEMENT: usize = 65;

pub const CLASS_GIVEN: usize = 66;

pub const CLASS: usize = 67;

pub const LIFETIME_GIVEN: usize = 68;

pub const LIFETIME: usize = 69;

pub const TEMPORARY_GIVEN: usize = 70;

pub const TEMPORARY: usize = 71;

pub const VISITED_EXTENSION_GIVEN: usize = 72;

pub const VISITED_EXTENSION: usize = 73;

// The same, by their names in the table.
pub const NAMES: AssignPlaces = AssignPlaces {
    groups: GROUPS,
    o_bit: O_BIT,
    acknowledged_call_given: ACKNOWLEDGED_CALL_GIVEN,
    acknowledged_call: ACKNOWLEDGED_CALL,
    broadcast_given: BROADCAST_GIVEN,
    broadcast: BROADCAST,
    name_given: NAME_GIVEN,
    name: NAME,
    acknowledgement_given: ACKNOWLEDGEMENT_GIVEN,
    acknowledgement: ACKNOWLEDGEMENT,
    class_given: CLASS_GIVEN,
    class: CLASS,
    lifetime_given: LIFETIME_GIVEN,
    lifetime: LIFETIME,
    temporary_given: TEMPORARY_GIVEN,
    temporary: TEMPORARY,
    visited_extension_given: VISITED_EXTENSION_GIVEN,
    visited_extension: VISITED_EXTENSION,
};
