// Passing a table's elements, one after the other. An element that is not there costs one test.
// Whether one is there is asked of the caller's record itself: no cleaned copy is held.
ghost use Rattle.std.specs.Prelude.{◌≡◌, T, []};
ghost use Rattle.layout.specs.Frame.{laid};
ghost use Rattle.layout.specs.Shape.{rows_of, span, conditions_of};
ghost use Rattle.table.specs.Sound.{sound};
ghost use Rattle.writing.specs.Lay.{Ready};
ghost use Rattle.writing.specs.Found.{Looks, LooksAlong, behind, found_of};
ghost use Rattle.writing.specs.Goes.{GoesBy, SameWalk};
ghost use Rattle.writing.specs.Whole.{Walks};

use crate::walk::{Pass, Passed, Walk};
use layout::{Element, Kind, PLACES, Shape};
use refusal::Refusal;
use table::fields::{M_BIT, choice, number};
use table::items::places_of;
use table::lines::{HEAD_BITS, table_of};
use table::tests::{IF_NO, holds, there};

// What was passed, by the value at its first place.
fn found(put: Option<()>, value: u32) -> Option<Passed>
    ensures { result ≡ found_of put value }
{
    put?;
    Some(if value == 0 {
        Passed::Empty
    } else {
        Passed::Held
    })
}

impl<'p, 'v, P: Pass> Walk<'p, 'v, P> {
    // The rows of a shape that is there. `last` is the place of the last element before it that holds anything.
    fn shape(&mut self, place: usize, shape: Shape, last: Option<usize>) -> Option<Passed>
        requires { Ready self.old.at place (span shape) × T (sound shape place) }
        ensures puts { GoesBy P.pass P.lent (Looks P.pass self.old.values.now (behind last) place shape) (rows_of shape [] place) place
            self.old self.new result }
        ensures stays { SameWalk self.old self.new }
    {
        let values = self.values;
        let value = values[place];
        match shape {
            Shape::Number(w) => found(self.field(value, number(w)), value),
            Shape::Choice(w, n) => found(self.field(value, choice(w, n)), value),
            Shape::Identity => found(self.identity(place), value),
            Shape::List(items) => found(self.list(place, items), value),
            Shape::Ending => found(self.field(0, M_BIT), 0),
            Shape::Missing(q) => {
                let missing = holds(values, q, IF_NO);
                self.pass.barred(missing, Some(Passed::NoGroup))
            }
            Shape::Nothing(o) => {
                let nothing = last.is_none_or(|held| held <= usize::from(o));
                self.pass.barred(nothing, None)
            }
        }
    }

    // An element: its rows if it is there, else nothing.
    fn element(&mut self, place: usize, element: Element, last: Option<usize>) -> Option<Passed>
        requires { Ready self.old.at place (span element.1) × T (sound element.1 place) }
        ensures puts { GoesBy P.pass P.lent (LooksAlong P.pass self.old.values.now (behind last) place element)
            (rows_of element.1 (conditions_of element.0) place) place self.old self.new result }
        ensures stays { SameWalk self.old self.new }
    {
        let values = self.values;
        if there(values, element.0) {
            self.shape(place, element.1, last)
        } else {
            Some(Passed::Empty)
        }
    }
}

// The elements of a kind's table, after the head: the bit behind them, or why the record has no frame.
pub fn walk_elements<P: Pass>(
    pass: &mut P,
    kind: Kind,
    values: &[u32; PLACES],
) -> Result<usize, Refusal>
    ensures { Walks P.pass (laid kind values.now) (P.lent pass.old) (P.lent pass.new) result }
{
    let mut walk = Walk {
        pass,
        values,
        at: HEAD_BITS,
    };
    let mut grouped = true;
    let mut place = 0;
    let mut last = None;
    for &element in table_of(kind) {
        match walk.element(place, element, last).ok_or(Refusal::Reserved)? {
            Passed::Empty => {}
            Passed::Held => {
                last = Some(place);
            }
            Passed::NoGroup => {
                grouped = false;
            }
        }
        place += places_of(element.1);
    }
    if grouped {
        Ok(walk.at)
    } else {
        Err(Refusal::NoGroup)
    }
}
