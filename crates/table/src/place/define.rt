// DEFINE, table 19.
use layout::DefinePlaces;

pub const CALL_RELATED: usize = 0;

pub const CALL_IDENTIFIER: usize = 1;

pub const GIVEN: usize = 2;

pub const GROUPS: usize = 4;

pub const O_BIT: usize = 45;

pub const SET_REFERENCE_GIVEN: usize = 46;

pub const SET_REFERENCE: usize = 47;

pub const OWNERS_INCLUDED_GIVEN: usize = 48;

pub const OWNERS_INCLUDED: usize = 49;

pub const OWNERS: usize = 50;

pub const ACKNOWLEDGED_CALL_GIVEN: usize = 91;

pub const ACKNOWLEDGED_CALL: usize = 92;

pub const BROADCAST_GIVEN: usize = 93;

pub const BROADCAST: usize = 94;

pub const NAME_GIVEN: usize = 95;

pub const NAME: usize = 96;

// The letters follow their count.
pub const LETTERS: usize = NAME + 1;

pub const ASSIGNMENT_GIVEN: usize = 113;

pub const ASSIGNMENT: usize = 114;

pub const RADIOS: usize = 115;

pub const ACKNOWLEDGEMENT_GIVEN: usize = 156;

pub const ACKNOWLEDGEMENT: usize = 157;

pub const CLASS_GIVEN: usize = 158;

pub const CLASS: usize = 159;

pub const LIFETIME_GIVEN: usize = 160;

pub const LIFETIME: usize = 161;

pub const TEMPORARY_GIVEN: usize = 162;

pub const TEMPORARY: usize = 163;

// The same, by their names in the table.
pub const NAMES: DefinePlaces = DefinePlaces {
    call_related: CALL_RELATED,
    call_identifier: CALL_IDENTIFIER,
    given: GIVEN,
    groups: GROUPS,
    o_bit: O_BIT,
    set_reference_given: SET_REFERENCE_GIVEN,
    set_reference: SET_REFERENCE,
    owners_included_given: OWNERS_INCLUDED_GIVEN,
    owners_included: OWNERS_INCLUDED,
    owners: OWNERS,
    acknowledged_call_given: ACKNOWLEDGED_CALL_GIVEN,
    acknowledged_call: ACKNOWLEDGED_CALL,
    broadcast_given: BROADCAST_GIVEN,
    broadcast: BROADCAST,
    name_given: NAME_GIVEN,
    name: NAME,
    assignment_given: ASSIGNMENT_GIVEN,
    assignment: ASSIGNMENT,
    radios: RADIOS,
    acknowledgement_given: ACKNOWLEDGEMENT_GIVEN,
    acknowledgement: ACKNOWLEDGEMENT,
    class_given: CLASS_GIVEN,
    class: CLASS,
    lifetime_given: LIFETIME_GIVEN,
    lifetime: LIFETIME,
    temporary_given: TEMPORARY_GIVEN,
    temporary: TEMPORARY,
};
