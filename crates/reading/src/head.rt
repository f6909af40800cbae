// Reading a frame's head.
use crate::parts::{Frame, refused};
use bits::first_two;
use layout::{Kind, Refused};
use refusal::Refusal;
use table::lines::{ACTION_TYPE_BITS, HEAD_BITS, SS_TYPE, SS_TYPE_BITS, action_type};

impl<'a> Frame<'a> {
    ghost use Rattle.std.specs.Prelude.{◌≡◌, []};
    ghost use Rattle.layout.specs.Frame as spec;
    ghost use Rattle.reading.specs.Reads.{bits_in, onward};

    // SS-Type and action type, by one reader that is taken from, moved and taken from again.
    pub fn head(self, kind: Kind) -> Result<usize, Refused>
        ensures { spec.read kind (bits_in self.entry) ≡ onward (spec.rows kind) (bits_in self.entry) [] result }
    {
        let (first, second) = first_two(self.bytes, self.bits, SS_TYPE_BITS, ACTION_TYPE_BITS);
        let ss = first.ok_or(refused(Refusal::EndsInside, 0))?;
        let action = second.ok_or(refused(Refusal::EndsInside, SS_TYPE_BITS))?;
        if ss != SS_TYPE {
            return Err(refused(Refusal::WrongKind, 0));
        }
        if action != action_type(kind) {
            return Err(refused(Refusal::WrongKind, SS_TYPE_BITS));
        }
        Ok(HEAD_BITS)
    }
}
