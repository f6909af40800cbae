// Reading a table's elements, one after the other. An element that is not there costs one test.
use crate::parts::{Filling, Frame, refused};
use layout::{Element, Kind, PLACES, Refused, Shape};
use refusal::Refusal;
use table::fields::{M_BIT, choice, number};
use table::items::places_of;
use table::lines::table_of;
use table::tests::{IF_NO, holds, nothing_since, there};

impl Filling {
    ghost use Rattle.std.specs.Prelude.{◌≡◌, ◌+◌, ◌<◌, OnOk};
    ghost use Rattle.reading.specs.Reads.{barred_at};

    // The refusal of the element that begins one bit before, if there is a reason; else its row is passed.
    fn barred(&mut self, at: usize, reason: bool, refusal: Refusal) -> Result<usize, Refused>
        requires { self.old.place < PLACES }
        ensures { (result ≡ barred_at reason refusal at) × (self.new.values ≡ self.old.values)
            × OnOk result (self.new.place ≡ self.old.place + 1) }
    {
        if reason {
            return Err(refused(refusal, at.saturating_sub(1)));
        }
        self.skip(1);
        Ok(at)
    }
}

impl<'a> Frame<'a> {
    ghost use Rattle.std.specs.Prelude.{◌≡◌, [], ◌+◌, ◌≤◌, T, drop, replicate};
    ghost use Rattle.layout.specs.Frame.{rows, as_reading};
    ghost use Rattle.layout.specs.Read.{read_rows};
    ghost use Rattle.layout.specs.Shape.{conditions_of, rows_of, span};
    ghost use Rattle.table.specs.Sound.{sound};
    ghost use Rattle.reading.specs.Reads.{bits_in, recorded, Fills};

    // The rows of a shape that is there.
    // Stays: at and into apart: the next bit is what each method answers, and `?` hands it on; in the record it would be set in two places.
    fn shape(self, at: usize, into: &mut Filling, shape: Shape) -> Result<usize, Refused>
        requires { (into.old.place + span shape ≤ PLACES) × T (sound shape into.old.place) }
        ensures { Fills (rows_of shape [] into.old.place) (bits_in self.entry) at into.old into.new result }
    {
        match shape {
            Shape::Number(w) => self.field(at, into, number(w)),
            Shape::Choice(w, n) => self.field(at, into, choice(w, n)),
            Shape::Identity => self.identity(at, into),
            Shape::List(items) => self.list(at, into, items),
            Shape::Ending => self.field(at, into, M_BIT),
            Shape::Missing(q) => {
                let missing = holds(&into.values, q, IF_NO);
                into.barred(at, missing, Refusal::NoGroup)
            }
            Shape::Nothing(o) => {
                let nothing = nothing_since(&into.values, o, into.place);
                into.barred(at, nothing, Refusal::NothingFollows)
            }
        }
    }

    // An element: its rows if it is there, else nothing.
    fn element(self, at: usize, into: &mut Filling, element: Element) -> Result<usize, Refused>
        requires { (into.old.place + span element.1 ≤ PLACES) × T (sound element.1 into.old.place) }
        ensures { Fills (rows_of element.1 (conditions_of element.0) into.old.place) (bits_in self.entry) at
            into.old into.new result }
    {
        let Element(when, shape) = element;
        if there(&into.values, when) {
            self.shape(at, into, shape)
        } else {
            into.skip(places_of(shape));
            Ok(at)
        }
    }

    // The elements of a kind's table from the bit `from` on, and the end, into a record of which no row is done.
    pub fn elements(self, kind: Kind, from: usize, into: &mut Filling) -> Result<(), Refused>
        requires { (into.old.values ≡ replicate PLACES 0) × (into.old.place ≡ 0) }
        ensures { recorded into.new.values result ≡ as_reading (read_rows (rows kind) [] from (drop from (bits_in self.entry))) }
    {
        let mut at = from;
        for element in table_of(kind) {
            at = self.element(at, into, *element)?;
        }
        if at < self.bits {
            return Err(refused(Refusal::BitsRemain, at));
        }
        Ok(())
    }
}
