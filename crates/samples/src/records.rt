// Records, filled by the names of their places.
ghost use Rattle.std.specs.Prelude.{◌+◌, ◌≤◌, ◌<◌, length};
ghost use Rattle.layout.specs.declared.Items.TheVariants.{Numbers, Letters};
ghost use Rattle.layout.specs.Frame.{places};
ghost use Rattle.layout.specs.Shape.{list_places};

use frame::Record;
use frame::place::*;

// An identity, in one of the three forms.
// Stays: three forms, none of them an absence or a refusal.
#[derive(Clone, Copy)]
pub enum Identity {
    Sna(u32),
    Ssi(u32),
    // An SSI and its extension.
    Extended(u32, u32),
}

pub trait Fill: Sized {
    // A value at a place.
    // Stays: place and value apart, each another at each call.
    fn put(self, place: usize, value: u32) -> Self
        requires { place < places };

    // An optional element, behind its P-bit.
    fn option(self, place: usize, value: u32) -> Self
        requires { (0 < place) × (place < places) };

    // An identity's form, and its numbers.
    fn identity(self, place: usize, identity: Identity) -> Self
        requires { place + 4 ≤ places };

    // A list of one identity, or of two to ten, behind its number type.
    fn list(self, place: usize, identities: &[Identity]) -> Self
        requires { (place + list_places Numbers ≤ places) × (length identities.now ≤ 10) };

    // A range, by its first and its last.
    fn range(self, place: usize, first: Identity, last: Identity) -> Self
        requires { place + list_places Numbers ≤ places };

    // A list of ten identities: SSI and extension, each its place's number.
    fn ten(self, place: usize) -> Self
        requires { place + list_places Numbers ≤ places };

    // A name of sixteen letters behind its P-bit, each its place's number.
    fn name(self, place: usize) -> Self
        requires { (0 < place) × (place + list_places Letters ≤ places) };
}

impl Fill for Record {
    fn put(mut self, place: usize, value: u32) -> Record {
        self.place[place] = value;
        self
    }

    fn option(self, place: usize, value: u32) -> Record {
        self.put(place - 1, 1).put(place, value)
    }

    fn identity(self, place: usize, identity: Identity) -> Record {
        match identity {
            Identity::Sna(number) => self.put(place, SNA_FORM).put(place + SNA, number),
            Identity::Ssi(number) => self.put(place, SSI_FORM).put(place + SSI, number),
            Identity::Extended(number, extension) => self
                .put(place, EXTENDED_FORM)
                .put(place + SSI, number)
                .put(place + EXTENSION, extension),
        }
    }

    fn list(self, place: usize, identities: &[Identity]) -> Record {
        let count = identities.len() as u32;
        let mut r = self.put(place, if count == 1 { 1 } else { count + 1 });
        for (i, &identity) in identities.iter().enumerate() {
            r = r.identity(place + 1 + IDENTITY_PLACES * i, identity);
        }
        r
    }

    fn range(self, place: usize, first: Identity, last: Identity) -> Record {
        self.list(place, &[first, last]).put(place, 2)
    }

    fn ten(self, place: usize) -> Record {
        let mut r = self.put(place, 11);
        for i in 0..10 {
            let at = place + 1 + IDENTITY_PLACES * i;
            r = r.identity(
                at,
                Identity::Extended((at + SSI) as u32, (at + EXTENSION) as u32),
            );
        }
        r
    }

    fn name(self, place: usize) -> Record {
        let mut r = self.option(place, 16);
        for i in place + 1..place + NAME_PLACES {
            r.place[i] = i as u32;
        }
        r
    }
}
