#![tactic(auto)]

// What the frames of SS-DGNA are laid out by: the words of the tables, a frame's record, and what the reader and the writer answer.
// There is little code here: the definitions are in specs/, and what is proved of them alone in proofs/.
ghost use Rattle.std.specs.Prelude.{◌≡◌};
ghost use Rattle.layout.specs.Kinds.{kind_number, kind_named};

use refusal::Refusal;

// The places of a record of any kind: as many as table 19 has rows.
pub const PLACES: usize = 166;

// The kinds of frame, each with its number in house text.
#[derive(Clone, Copy, Debug, PartialEq, Eq)]
pub enum Kind {
    Define = 0x01,
    DefineAck = 0x02,
    Cancel = 0x03,
    CancelAck = 0x04,
    Assign = 0x05,
    AssigningAck = 0x06,
    Deassign = 0x07,
    DeassigningAck = 0x08,
    Delete = 0x0C,
    DeleteAck = 0x0D,
}

impl From<Kind> for u8 {
    ghost from_gives = { λ kind result. result ≡ kind_number kind };

    fn from(kind: Kind) -> u8 {
        kind as u8
    }
}

// A number that is no kind's.
#[derive(Clone, Copy, Debug, PartialEq, Eq)]
pub struct UnknownKind(pub u8);

impl TryFrom<u8> for Kind {
    type Error = UnknownKind;

    ghost try_from_gives = { λ number result. result ≡ kind_named number };

    fn try_from(number: u8) -> Result<Self, UnknownKind> {
        match number {
            0x01 => Ok(Kind::Define),
            0x02 => Ok(Kind::DefineAck),
            0x03 => Ok(Kind::Cancel),
            0x04 => Ok(Kind::CancelAck),
            0x05 => Ok(Kind::Assign),
            0x06 => Ok(Kind::AssigningAck),
            0x07 => Ok(Kind::Deassign),
            0x08 => Ok(Kind::DeassigningAck),
            0x0C => Ok(Kind::Delete),
            0x0D => Ok(Kind::DeleteAck),
            _ => Err(UnknownKind(number)),
        }
    }
}

// When an element is there: always, where a place holds a value, or by a chain of conditions, outermost first.
// In a chain two places hold 1, and then a place holds a value; a chain of two has its first place twice.
// Stays: none of its cases is an absence or a refusal, as an Option's or a Result's would be.
#[derive(Clone, Copy)]
pub enum When {
    Always,
    Is(u8, u8),
    All(u8, u8, u8, u8),
}

// What a list is of.
#[derive(Clone, Copy)]
pub enum Items {
    Numbers,
    Letters,
}

// What an element is made of.
// Stays: none of its cases is an absence or a refusal, as an Option's or a Result's would be.
#[derive(Clone, Copy)]
pub enum Shape {
    // A plain number of so many bits.
    Number(u8),
    // So many bits, of which so many codes have a meaning; the record holds 1 for code 0.
    Choice(u8, u8),
    Identity,
    // A count, and as many items.
    List(Items),
    // The M-bit: 1 would begin a type 3 element, refusal 7.
    Ending,
    // Refusal 5, where this place holds No.
    Missing(u8),
    // Refusal 6, where nothing came since the O-bit at this place.
    Nothing(u8),
}

// One line of a table: when it is there, and what it is made of.
#[derive(Clone, Copy)]
pub struct Element(pub When, pub Shape);

// A frame's values, one place a row of its table, after SS-Type and action type; 0 where the row is not there.
#[derive(Clone, Copy, PartialEq, Eq)]
pub struct Record {
    pub place: [u32; PLACES],
}

// The reader's error: a refusal, and the bit at which the refused element begins.
// Stays: two values, as words' `Taken` has two, and no twin of it: an error, and what was taken.
#[derive(Clone, Copy, Debug, PartialEq, Eq)]
pub struct Refused {
    pub refusal: Refusal,
    pub bit: usize,
}

// The places of a DEFINE record (table 19). `_given` is the place of an optional element's P-bit.
#[derive(Clone, Copy)]
pub struct DefinePlaces {
    pub call_related: usize,
    pub call_identifier: usize,
    pub given: usize,
    pub groups: usize,
    pub o_bit: usize,
    pub set_reference_given: usize,
    pub set_reference: usize,
    pub owners_included_given: usize,
    pub owners_included: usize,
    pub owners: usize,
    pub acknowledged_call_given: usize,
    pub acknowledged_call: usize,
    pub broadcast_given: usize,
    pub broadcast: usize,
    pub name_given: usize,
    pub name: usize,
    pub assignment_given: usize,
    pub assignment: usize,
    pub radios: usize,
    pub acknowledgement_given: usize,
    pub acknowledgement: usize,
    pub class_given: usize,
    pub class: usize,
    pub lifetime_given: usize,
    pub lifetime: usize,
    pub temporary_given: usize,
    pub temporary: usize,
}

// Those of a DEFINE-ACK record (table 20).
// Stays: the names are the table's own; ASSIGNING-ACK has other elements at as many places.
#[derive(Clone, Copy)]
pub struct DefineAckPlaces {
    pub call_related: usize,
    pub call_identifier: usize,
    pub groups: usize,
    pub result: usize,
    pub o_bit: usize,
}

// Those of a CANCEL record (table 33).
// Stays: the names are the table's own; CANCEL-ACK and DEASSIGN have other elements at as many places.
#[derive(Clone, Copy)]
pub struct CancelPlaces {
    pub call_related: usize,
    pub call_identifier: usize,
    pub defined_group: usize,
    pub existing_group: usize,
}

// Those of a CANCEL-ACK record (table 34).
#[derive(Clone, Copy)]
pub struct CancelAckPlaces {
    pub call_related: usize,
    pub call_identifier: usize,
    pub defined_group: usize,
    pub result: usize,
}

// Those of an ASSIGN record (table 23).
#[derive(Clone, Copy)]
pub struct AssignPlaces {
    pub groups: usize,
    pub o_bit: usize,
    pub acknowledged_call_given: usize,
    pub acknowledged_call: usize,
    pub broadcast_given: usize,
    pub broadcast: usize,
    pub name_given: usize,
    pub name: usize,
    pub acknowledgement_given: usize,
    pub acknowledgement: usize,
    pub class_given: usize,
    pub class: usize,
    pub lifetime_given: usize,
    pub lifetime: usize,
    pub temporary_given: usize,
    pub temporary: usize,
    pub visited_extension_given: usize,
    pub visited_extension: usize,
}

// Those of an ASSIGNING-ACK record (table 24).
#[derive(Clone, Copy)]
pub struct AssigningAckPlaces {
    pub groups: usize,
    pub result: usize,
    pub o_bit: usize,
    pub attachment_given: usize,
    pub attachment: usize,
}

// Those of a DEASSIGN record (table 25).
#[derive(Clone, Copy)]
pub struct DeassignPlaces {
    pub groups: usize,
    pub o_bit: usize,
    pub acknowledgement_given: usize,
    pub acknowledgement: usize,
}

// Those of a DEASSIGNING-ACK record (table 26).
// Stays: the names are the table's own.
#[derive(Clone, Copy)]
pub struct DeassigningAckPlaces {
    pub groups: usize,
    pub result: usize,
}

// Those of a DELETE record (table 21).
#[derive(Clone, Copy)]
pub struct DeletePlaces {
    pub groups: usize,
    pub deleted: usize,
    pub removed: usize,
    pub o_bit: usize,
    pub radios: usize,
    pub acknowledgement_given: usize,
    pub acknowledgement: usize,
}

// Those of a DELETE-ACK record (table 22).
#[derive(Clone, Copy)]
pub struct DeleteAckPlaces {
    pub groups: usize,
    pub result: usize,
    pub o_bit: usize,
}

// The places of every kind's record.
#[derive(Clone, Copy)]
pub struct KindPlaces {
    pub define: DefinePlaces,
    pub define_ack: DefineAckPlaces,
    pub cancel: CancelPlaces,
    pub cancel_ack: CancelAckPlaces,
    pub assign: AssignPlaces,
    pub assigning_ack: AssigningAckPlaces,
    pub deassign: DeassignPlaces,
    pub deassigning_ack: DeassigningAckPlaces,
    pub delete: DeletePlaces,
    pub delete_ack: DeleteAckPlaces,
}
