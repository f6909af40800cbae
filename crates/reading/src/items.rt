// Reading a field, an identity, a list: into the places of a record that hold 0 from there on.
use crate::parts::{Filling, Frame, refused};
use bits::field_from;
use layout::{Items, PLACES, Refused};
use refusal::Refusal;
use table::Field;
use table::fields::{EXTENSION, FORM, LETTER, SNA, SSI, count_field};
use table::items::{least_for, stride_of, times_of};

impl<'a> Frame<'a> {
    ghost use Rattle.std.specs.Prelude.{◌≡◌, [], ◌∷◌, ◌+◌, ◌*◌, ◌≤◌, ◌<◌, drop};
    ghost use Rattle.layout.specs.declared.Shape.TheVariants as shape;
    ghost use Rattle.layout.specs.Row.{at_least};
    ghost use Rattle.layout.specs.Shape.{times, least, stride, identity, item, repeated, rows_of};
    ghost use Rattle.table.specs.Fields.{row_for, Narrow};
    ghost use Rattle.reading.specs.Reads.{bits_in, Fills};

    // The field of a row that is there.
    pub fn field(self, at: usize, into: &mut Filling, field: Field) -> Result<usize, Refused>
        requires { (into.old.place < PLACES) × Narrow field }
        ensures { Fills (row_for field [] ∷ []) (bits_in self.entry) at into.old into.new result }
    {
        let found = field_from(self.bytes, self.bits, at, field.width);
        let code = found.ok_or(refused(Refusal::EndsInside, at))?;
        if field.codes <= code {
            return Err(refused(field.refusal, at));
        }
        into.push(field.first + code);
        Ok(at + field.width)
    }

    // The extension, where the form has one.
    fn extension(self, at: usize, into: &mut Filling, form: usize) -> Result<usize, Refused>
        requires { (into.old.place ≡ form + 3) × (form + 4 ≤ PLACES) }
        ensures { Fills (drop 3 (identity [] form)) (bits_in self.entry) at into.old into.new result }
    {
        if into.values[form] == 3 {
            self.field(at, into, EXTENSION)
        } else {
            into.skip(1);
            Ok(at)
        }
    }

    // What follows an identity's form, which stands at `form`.
    fn after_form(self, at: usize, into: &mut Filling, form: usize) -> Result<usize, Refused>
        requires { (into.old.place ≡ form + 1) × (form + 4 ≤ PLACES) }
        ensures { Fills (drop 1 (identity [] form)) (bits_in self.entry) at into.old into.new result }
    {
        match into.values[form] {
            0 => {
                into.skip(3);
                Ok(at)
            }
            1 => {
                let next = self.field(at, into, SNA)?;
                into.skip(2);
                Ok(next)
            }
            _ => {
                into.skip(1);
                let next = self.field(at, into, SSI)?;
                self.extension(next, into, form)
            }
        }
    }

    // An identity: its form, and what the form says.
    pub fn identity(self, at: usize, into: &mut Filling) -> Result<usize, Refused>
        requires { into.old.place + 4 ≤ PLACES }
        ensures { Fills (identity [] into.old.place) (bits_in self.entry) at into.old into.new result }
    {
        let form = into.place;
        let next = self.field(at, into, FORM)?;
        self.after_form(next, into, form)
    }

    // An item that is there.
    // Stays: what a list is of stands in its table's line as a value, so the choice falls where an item is read.
    fn item(self, at: usize, into: &mut Filling, items: Items) -> Result<usize, Refused>
        requires { into.old.place + stride items ≤ PLACES }
        ensures { Fills (item items [] into.old.place) (bits_in self.entry) at into.old into.new result }
    {
        match items {
            Items::Numbers => self.identity(at, into),
            Items::Letters => self.field(at, into, LETTER),
        }
    }

    // Item `i` of the list whose count stands at `count`, if it is there.
    fn listed(
        self,
        at: usize,
        into: &mut Filling,
        count: usize,
        items: Items,
        i: u8,
    ) -> Result<usize, Refused>
        requires { (count < into.old.place) × (into.old.place + stride items ≤ PLACES) }
        ensures { Fills (item items (at_least count (least items i) ∷ []) into.old.place) (bits_in self.entry) at
            into.old into.new result }
    {
        if least_for(items, i) <= into.values[count] {
            self.item(at, into, items)
        } else {
            into.skip(stride_of(items));
            Ok(at)
        }
    }

    // The items of the list whose count stands at `count`.
    fn items(
        self,
        from: usize,
        into: &mut Filling,
        count: usize,
        items: Items,
    ) -> Result<usize, Refused>
        requires { (into.old.place ≡ count + 1) × (count + 1 + stride items * times items ≤ PLACES) }
        ensures { Fills (repeated items count (count + 1) 0 (times items)) (bits_in self.entry) from
            into.old into.new result }
    {
        let mut at = from;
        for i in 0..times_of(items) {
            at = self.listed(at, into, count, items, i)?;
        }
        Ok(at)
    }

    // A list: its count, and its items.
    pub fn list(self, at: usize, into: &mut Filling, items: Items) -> Result<usize, Refused>
        requires { into.old.place + 1 + stride items * times items ≤ PLACES }
        ensures { Fills (rows_of (shape.List items) [] into.old.place) (bits_in self.entry) at
            into.old into.new result }
    {
        let count = into.place;
        let next = self.field(at, into, count_field(items))?;
        self.items(next, into, count, items)
    }
}
