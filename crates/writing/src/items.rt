// Passing an identity, a list of the caller's record.
ghost use Rattle.std.specs.Prelude.{◌+◌, ◌*◌, ◌<◌, [], ◌∷◌, drop};
ghost use Rattle.layout.specs.Row.{at_least};
ghost use Rattle.layout.specs.Shape.{times, least, stride, identity, item, repeated, rows_of};
ghost use Rattle.layout.specs.declared.Shape.TheVariants as shape;
ghost use Rattle.writing.specs.Lay.{Ready, Any, Known};
ghost use Rattle.writing.specs.Goes.{Goes, SameWalk};

use crate::walk::{Pass, Walk};
use layout::Items;
use table::fields::{EXTENSION, FORM, LETTER, SNA, SSI, count_field};
use table::items::{least_for, stride_of, times_of};

impl<'p, 'v, P: Pass> Walk<'p, 'v, P> {
    // The extension, where the form has one.
    fn extension(&mut self, place: usize) -> Option<()>
        requires { Ready self.old.at (place + 3) 1 }
        ensures writes { Goes P.pass P.lent (Known self.old.values.now place) (drop 3 (identity [] place)) (place + 3) self.old self.new result }
        ensures stays { SameWalk self.old self.new }
    {
        if self.values[place] == 3 {
            self.field(self.values[place + 3], EXTENSION)
        } else {
            Some(())
        }
    }

    // What follows an identity's form.
    fn form(&mut self, place: usize) -> Option<()>
        requires { Ready self.old.at (place + 1) 3 }
        ensures writes { Goes P.pass P.lent (Known self.old.values.now place) (drop 1 (identity [] place)) (place + 1) self.old self.new result }
        ensures stays { SameWalk self.old self.new }
    {
        if self.values[place] == 1 {
            return self.field(self.values[place + 1], SNA);
        }
        if self.values[place] < 2 {
            return Some(());
        }
        self.field(self.values[place + 2], SSI)?;
        self.extension(place)
    }

    // An identity: its form, and what the form says.
    pub fn identity(&mut self, place: usize) -> Option<()>
        requires { Ready self.old.at place 4 }
        ensures writes { Goes P.pass P.lent Any (identity [] place) place self.old self.new result }
        ensures stays { SameWalk self.old self.new }
    {
        self.field(self.values[place], FORM)?;
        self.form(place)
    }

    // An item that is there.
    // Stays: only the table's element says what a list is of, so what an item is is told by a match.
    fn item(&mut self, place: usize, items: Items) -> Option<()>
        requires { Ready self.old.at place (stride items) }
        ensures writes { Goes P.pass P.lent Any (item items [] place) place self.old self.new result }
        ensures stays { SameWalk self.old self.new }
    {
        match items {
            Items::Numbers => self.identity(place),
            Items::Letters => self.field(self.values[place], LETTER),
        }
    }

    // Item `i`, at `place`, of the list whose count is at `count`, if it is there.
    // Stays: `place` and `items` apart, since the place goes on from item to item, and what the list is of does not.
    fn listed(&mut self, count: usize, place: usize, items: Items, i: u8) -> Option<()>
        requires { Ready self.old.at place (stride items) × (count < place) }
        ensures writes { Goes P.pass P.lent (Known self.old.values.now count) (item items (at_least count (least items i) ∷ []) place) place
            self.old self.new result }
        ensures stays { SameWalk self.old self.new }
    {
        if least_for(items, i) <= self.values[count] {
            self.item(place, items)
        } else {
            Some(())
        }
    }

    // The items of the list whose count is at `count`.
    fn items(&mut self, count: usize, items: Items) -> Option<()>
        requires { Ready self.old.at (count + 1) (stride items * times items) }
        ensures writes { Goes P.pass P.lent (Known self.old.values.now count) (repeated items count (count + 1) 0 (times items)) (count + 1)
            self.old self.new result }
        ensures stays { SameWalk self.old self.new }
    {
        let mut place = count + 1;
        for i in 0..times_of(items) {
            self.listed(count, place, items, i)?;
            place += stride_of(items);
        }
        Some(())
    }

    // A list: its count, and its items.
    pub fn list(&mut self, place: usize, items: Items) -> Option<()>
        requires { Ready self.old.at place (1 + stride items * times items) }
        ensures writes { Goes P.pass P.lent Any (rows_of (shape.List items) [] place) place self.old self.new result }
        ensures stays { SameWalk self.old self.new }
    {
        self.field(self.values[place], count_field(items))?;
        self.items(place, items)
    }
}
