#![tactic(auto)]

// Reading a frame: SS-Type and action type, then the elements of its kind's table.
mod elements;
mod head;
mod items;
mod parts;

ghost use Rattle.std.specs.Prelude.{◌≡◌};
ghost use Rattle.layout.specs.Frame.{reading_of};

use layout::{Kind, PLACES, Record, Refused};
use parts::{Filling, Frame, refused};
use refusal::Refusal;

impl<'a> Frame<'a> {
    ghost use Rattle.std.specs.Prelude.{replicate};
    ghost use Rattle.layout.specs.Frame as spec;
    ghost use Rattle.reading.specs.Reads.{bits_in, recorded};

    // The head, then the elements, into a record of which no row is done.
    fn read(self, kind: Kind, into: &mut Filling) -> Result<(), Refused>
        requires { (into.old.values ≡ replicate PLACES 0) × (into.old.place ≡ 0) }
        ensures { recorded into.new.values result ≡ spec.as_reading (spec.read kind (bits_in self.entry)) }
    {
        let at = self.head(kind)?;
        self.elements(kind, at, into)
    }
}

// A frame of `bits` bits in lent bytes. One result alone is as large as a record: the unused part of each that is made is cleared.
// Stays: a bit count beside the bytes, since a frame may end inside a byte; reading_of speaks of bytes that are too few, too.
pub fn read_frame(kind: Kind, frame: &[u8], bits: usize) -> Result<Record, Refused>
    ensures { result ≡ reading_of kind frame.now bits }
{
    if frame.len() < bits.div_ceil(8) {
        return Err(refused(Refusal::EndsInside, 0));
    }
    let mut into = Filling::new();
    Frame { bytes: frame, bits }.read(kind, &mut into)?;
    Ok(Record { place: into.values })
}
