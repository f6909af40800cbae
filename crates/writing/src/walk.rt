// A walk over a record, and the two passes over it: what each of them does with a field, and where a record may be refused.
ghost use Rattle.std.specs.Prelude.{◌≡◌, ◌≤◌, []};
ghost use Rattle.table.specs.Fields.{Narrow};
ghost use Rattle.writing.specs.Pass.{Pass};
ghost use Rattle.writing.specs.Pass as pass;
ghost use Rattle.writing.specs.Lay.{Lent, most_bits, reached, Passes};
ghost use Rattle.writing.specs.Found.{barred_of};
ghost use Rattle.writing.specs.Goes.{SameWalk};

use bits::put_field;
use layout::PLACES;
use std::num::wrapping_sub_u32;
use table::Field;

// What the passing of an element finds: it holds nothing, or something, or it is the group that is missing.
#[derive(Clone, Copy, Debug, PartialEq, Eq)]
pub enum Passed {
    Empty,
    Held,
    NoGroup,
}

pub trait Pass {
    // Which of the two it is, and the bytes that it holds.
    ghost pass: { Pass };

    ghost lent: { Self → Lent };

    // The value of a field that is there, at the bit `at`: the next bit, or nothing if the value has no code.
    // Stays: the bit, the value and the field apart, since one is the walk's, one the record's and one the table's.
    fn put(&mut self, at: usize, value: u32, field: Field) -> Option<usize>
        requires { Narrow field × (at ≤ most_bits) }
        ensures { Passes pass field value at (lent self.old) (lent self.new) result };

    // A refusal, if there is a reason and this is the pass that judges.
    fn barred(&self, reason: bool, refusal: Option<Passed>) -> Option<Passed>
        ensures { result ≡ barred_of pass reason refusal };
}

// The pass that judges. It lays nothing.
#[derive(Clone, Copy)]
pub struct Judge;

impl Pass for Judge {
    ghost pass = { pass.Judge };

    ghost lent = { λ judge. record { bytes = []; borrow = 0 } };

    fn put(&mut self, at: usize, value: u32, field: Field) -> Option<usize> {
        if field.codes <= wrapping_sub_u32(value, field.first) {
            return None;
        }
        Some(at + field.width)
    }

    fn barred(&self, reason: bool, refusal: Option<Passed>) -> Option<Passed> {
        if reason { refusal } else { Some(Passed::Empty) }
    }
}

// The pass that lays the bits into the lent bytes. It judges nothing.
#[derive(Drop)]
pub struct Lay<'a> {
    pub out: &'a mut [u8],
}

impl Pass for Lay<'_> {
    ghost pass = { pass.Lay };

    ghost lent = { λ lay. record { bytes = lay.out.now; borrow = lay.out.ghost_name } };

    fn put(&mut self, at: usize, value: u32, field: Field) -> Option<usize> {
        put_field(
            self.out,
            at,
            field.width,
            wrapping_sub_u32(value, field.first),
        );
        Some(at + field.width)
    }

    fn barred(&self, _reason: bool, _refusal: Option<Passed>) -> Option<Passed> {
        Some(Passed::Empty)
    }
}

// A pass over the caller's record, and the bit at which it goes on.
#[derive(Drop)]
pub struct Walk<'p, 'v, P> {
    pub pass: &'p mut P,
    pub values: &'v [u32; PLACES],
    pub at: usize,
}

impl<'p, 'v, P: Pass> Walk<'p, 'v, P> {
    // The value of a field that is there, if it has a code.
    pub fn field(&mut self, value: u32, field: Field) -> Option<()>
        requires { Narrow field × (self.old.at ≤ most_bits) }
        ensures passes { Passes P.pass field value self.old.at (P.lent self.old.pass.now) (P.lent self.new.pass.now) (reached result self.new.at) }
        ensures stays { SameWalk self.old self.new }
    {
        self.at = self.pass.put(self.at, value, field)?;
        Some(())
    }
}
