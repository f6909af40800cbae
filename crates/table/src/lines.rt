// The tables of document 000, one line an element, after SS-Type and action type.
// A static lies among the program's constants; a constant array is laid out on the stack wherever it is used.
mod assign;
mod assigning_ack;
mod cancel;
mod cancel_ack;
mod deassign;
mod deassigning_ack;
mod define;
mod define_ack;
mod delete;
mod delete_ack;

ghost use Rattle.std.specs.Prelude.{◌≡◌};
ghost use Rattle.layout.specs.Kinds.{table_of, action_type};

use layout::{Element, Items, Kind, Shape};

// What elements are made of.
const BIT: Shape = Shape::Number(1);

const YES_NO: Shape = Shape::Choice(1, 2);

// Acknowledgement requested: 0; 1 is reserved.
const REQUESTED: Shape = Shape::Choice(1, 1);

const NUMBERS: Shape = Shape::List(Items::Numbers);

const NAMED: Shape = Shape::List(Items::Letters);

// The table of a kind.
#[tactic(auto, unfolding(layout::specs::Kinds::table_of, layout::specs::Shape::span, layout::specs::Shape::spans))]
pub fn table_of(kind: Kind) -> &'static [Element]
    ensures { result.now ≡ table_of kind }
{
    match kind {
        Kind::Define => &define::TABLE,
        Kind::DefineAck => &define_ack::TABLE,
        Kind::Cancel => &cancel::TABLE,
        Kind::CancelAck => &cancel_ack::TABLE,
        Kind::Assign => &assign::TABLE,
        Kind::AssigningAck => &assigning_ack::TABLE,
        Kind::Deassign => &deassign::TABLE,
        Kind::DeassigningAck => &deassigning_ack::TABLE,
        Kind::Delete => &delete::TABLE,
        Kind::DeleteAck => &delete_ack::TABLE,
    }
}

// The head: SS-Type of every frame, and the bits that it and the action type take.
pub const SS_TYPE: u32 = 0b010100;

pub const SS_TYPE_BITS: usize = 6;

pub const ACTION_TYPE_BITS: usize = 4;

pub const HEAD_BITS: usize = SS_TYPE_BITS + ACTION_TYPE_BITS;

// The action type of a kind.
// Stays: a code of the head, which two kinds share, and so neither a discriminant nor a conversion.
pub fn action_type(kind: Kind) -> u32
    ensures { result ≡ action_type kind }
{
    match kind {
        Kind::Define => 0b0011,
        Kind::DefineAck => 0b0011,
        Kind::Cancel => 0b0110,
        Kind::CancelAck => 0b0110,
        Kind::Assign => 0b0001,
        Kind::AssigningAck => 0b0001,
        Kind::Deassign => 0b0010,
        Kind::DeassigningAck => 0b0010,
        Kind::Delete => 0b1010,
        Kind::DeleteAck => 0b1010,
    }
}
