// What reading goes by: a frame in lent bytes, and the record that is being filled.
ghost use Rattle.std.specs.Prelude.{◌≡◌, ◌+◌, ◌*◌, ◌≤◌, ◌<◌, length, set, replicate};
ghost use Rattle.table.specs.Sound.{Clear};

use layout::{PLACES, Refused};
use refusal::Refusal;

// A frame of `bits` bits in lent bytes, which hold them all.
#[derive(Clone, Copy)]
pub struct Frame<'a> {
    pub bytes: &'a [u8],
    pub bits: usize,
    ghost lent: { bits ≤ 8 * length bytes.now },
}

// A record that is being filled: the rows before `place` are done, and the places from there on hold 0.
#[derive(Drop)]
pub struct Filling {
    pub values: [u32; PLACES],
    pub place: usize,
    ghost clear: { Clear values place },
}

impl Filling {
    // No row is done.
    pub fn new() -> Self
        ensures { (result.values ≡ replicate PLACES 0) × (result.place ≡ 0) }
    {
        Filling {
            values: [0u32; PLACES],
            place: 0,
        }
    }

    // A row that is there, with its value.
    pub fn push(&mut self, value: u32)
        requires { self.old.place < PLACES }
        ensures { (self.new.values ≡ set self.old.values self.old.place value) × (self.new.place ≡ self.old.place + 1) }
    {
        self.values[self.place] = value;
        self.place += 1;
    }

    // Rows that are not there: their places hold 0.
    pub fn skip(&mut self, rows: usize)
        requires { self.old.place + rows ≤ PLACES }
        ensures { (self.new.values ≡ self.old.values) × (self.new.place ≡ self.old.place + rows) }
    {
        self.place += rows;
    }
}

// A refusal of the element that begins at `bit`.
pub fn refused(refusal: Refusal, bit: usize) -> Refused
    ensures { result ≡ record { refusal = refusal; bit = bit } }
{
    Refused { refusal, bit }
}
