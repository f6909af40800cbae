// The places of a record, by name. Where an element is optional, the place `_GIVEN` holds its P-bit: 1 where it is there.
// Options are left out, whatever their places hold, unless the O-bit's place is 1.
// A choice holds its code and 1 more: YES and NO; a plain number holds its code. What is not there holds 0.
// Each kind has a file; `kind_places` holds every name to its table: it gives the places that the table's own definition has under that name.
pub mod assign;
pub mod assigning_ack;
pub mod cancel;
pub mod cancel_ack;
pub mod deassign;
pub mod deassigning_ack;
pub mod define;
pub mod define_ack;
pub mod delete;
pub mod delete_ack;

ghost use Rattle.std.specs.Prelude.{◌≡◌};
ghost use Rattle.layout.specs.Kinds.{kind_places};

use layout::KindPlaces;

// The codes of a choice and of an identity's form, as a record's places hold them.
// Stays: numbers, since a record's places hold them, and a caller may put any number there (write-unique).
pub const YES: u32 = 1;

pub const NO: u32 = 2;

// An identity takes four places: its form, and its SNA, SSI and extension as the form says.
pub const SNA_FORM: u32 = 1;

pub const SSI_FORM: u32 = 2;

pub const EXTENDED_FORM: u32 = 3;

pub const SNA: usize = 1;

pub const SSI: usize = 2;

pub const EXTENSION: usize = 3;

pub const IDENTITY_PLACES: usize = 4;

// A list of numbers takes 41 places: its number type, and ten identities from the next on.
pub const NUMBERS_PLACES: usize = 1 + 10 * IDENTITY_PLACES;

// A name takes 17: its letter count, and sixteen letters from the next on.
pub const NAME_PLACES: usize = 1 + 16;

// The places of every kind.
#[tactic(auto, unfolding(layout::specs::Kinds::kind_places, layout::specs::Shape::span, layout::specs::Shape::spans))]
pub fn kind_places() -> KindPlaces
    ensures { result ≡ kind_places }
{
    KindPlaces {
        define: define::NAMES,
        define_ack: define_ack::NAMES,
        cancel: cancel::NAMES,
        cancel_ack: cancel_ack::NAMES,
        assign: assign::NAMES,
        assigning_ack: assigning_ack::NAMES,
        deassign: deassign::NAMES,
        deassigning_ack: deassigning_ack::NAMES,
        delete: delete::NAMES,
        delete_ack: delete_ack::NAMES,
    }
}
