#![tactic(auto)]

// The refusals, each with the number that a caller or a printed reply may show.
ghost use Rattle.std.specs.Prelude.{◌≡◌, Some};
ghost use Rattle.refusal.specs.Number.{number_of};
ghost use Rattle.std.specs.Fmt.{decimal};
ghost use Rattle.refusal.specs.Reply.{PutsRefusal};

use std::fmt;

#[derive(Clone, Copy, Debug, PartialEq, Eq)]
pub enum Refusal {
    // The bits end inside an element, or the bit count exceeds the lent bits.
    EndsInside = 1,
    // Bits remain after the frame's end.
    BitsRemain = 2,
    // SS-Type or action type is not the asked kind's.
    WrongKind = 3,
    // A reserved code, or a value to be written that has no code.
    Reserved = 4,
    // DEFINE, group not given and not call related.
    NoGroup = 5,
    // O-bit 1 and no element after it.
    NothingFollows = 6,
    // M-bit 1: a type 3 element would begin.
    TypeThree = 7,
    // Writer: the start byte lies past the end, or too few bytes follow it.
    NoSpace = 8,
    // A bad line in the house text.
    BadLine = 9,
    // Ledger: a value of the order is out of its range.
    BadOrder = 10,
    // Ledger: the order's form is not taken.
    FormNotTaken = 11,
    // Ledger: a group that is not there.
    NoSuchGroup = 12,
    // Ledger: the asker does not own a named group.
    NotOwner = 13,
    // Ledger: no open assignment, or deassignment, for this answer.
    NotOpen = 14,
    // Ledger: a delete that neither deletes nor deassigns.
    NothingToDo = 15,
    // Ledger: too many groups or pairs after the order.
    Full = 16,
    // Ledger: too little room for the orders or the list.
    NoRoom = 17,
    // Ledger: the lent ledger is not in its written form.
    NotWritten = 18,
    // Ledger: a range whose first is above its last, or whose ends differ in their extension.
    BadRange = 19,
    // Ledger: a list of too many numbers.
    TooManyNumbers = 20,
    // Ledger: a group with too many owners after the order.
    TooManyOwners = 21,
}

impl From<Refusal> for u8 {
    ghost from_gives = { λ refusal result. result ≡ number_of refusal };

    fn from(refusal: Refusal) -> u8 {
        refusal as u8
    }
}

// A refusal is shown by its number.
impl fmt::Display for Refusal {
    ghost output = { λ refusal. Some (decimal (number_of refusal)) };

    fn fmt<W: fmt::Write>(&self, f: &mut fmt::Formatter<W>) -> fmt::Result {
        write!(f, "{}", u8::from(*self))
    }
}

impl Refusal {
    // Puts R and the number, in decimal, to the front of `out`, and answers how many bytes they take: no number has more than two digits.
    // On an `out` under three bytes it puts nothing, and answers 0.
    // Stays: digits by hand beside Display, which writes to a formatter, where this has lent bytes of which those behind stay.
    pub fn put(self, out: &mut [u8]) -> usize
        ensures { PutsRefusal self out.old out.new result }
    {
        if out.len() < 3 {
            return 0;
        }
        let number = u8::from(self);
        out[0] = b'R';
        if number < 10 {
            out[1] = b'0' + number;
            return 2;
        }
        out[1] = b'0' + number / 10;
        out[2] = b'0' + number % 10;
        3
    }
}
