// A DEFINE record: its lists, and the state in which its pairs begin.
ghost use Rattle.std.specs.Prelude.{◌+◌, ◌<◌, ◌≡◌};
ghost use Rattle.layout.specs.Frame.{places};
ghost use Rattle.rules.specs.Mark.{begun};
ghost use Rattle.rules.specs.Recorded.{optional, optional_yes, acknowledgement_requested};
ghost use Rattle.order.specs.Recorded.{identity_in, numbers_in, lists_of};

use crate::values::{one_down, optional};
use crate::{DefineLists, Identity, Numbers};
use layout::PLACES;
use rows::WAITING;
use std::array;
use table::place::define::*;
use table::place::*;

// Whether an optional element is there and says "yes".
// Stays: place and k apart, since k is another place at each call, and so is what bounds it.
fn optional_yes(place: [u32; PLACES], k: usize) -> bool
    requires { k + 1 < places }
    ensures { result ≡ optional_yes place k }
{
    optional(place, k) && place[k + 1] == YES
}

// The identity whose four places begin at `k`.
fn identity_at(place: [u32; PLACES], k: usize) -> Identity
    requires { k + 3 < places }
    ensures { result ≡ identity_in place k }
{
    Identity {
        form: one_down(place[k]),
        sna: place[k + 1],
        ssi: place[k + 2],
        extension: place[k + 3],
    }
}

// The list whose number type is at `k`, its ten identities behind it.
fn numbers_at(place: [u32; PLACES], k: usize) -> Numbers
    requires { k + 40 < places }
    ensures { result ≡ numbers_in place k }
{
    Numbers {
        code: one_down(place[k]),
        identity: array::from_fn(|i| identity_at(place, k + 1 + 4 * i)),
    }
}

// The lists of a DEFINE record: the groups that it names, the owners that it gives, the radios that it assigns.
pub fn lists_of(place: [u32; PLACES]) -> DefineLists
    ensures { result ≡ lists_of place }
{
    DefineLists {
        groups: (place[GIVEN] == YES).then(|| numbers_at(place, GROUPS)),
        owners: optional_yes(place, OWNERS_INCLUDED_GIVEN).then(|| numbers_at(place, OWNERS)),
        radios: optional_yes(place, ASSIGNMENT_GIVEN).then(|| numbers_at(place, RADIOS)),
    }
}

// The state that its pairs begin with: waiting where it asks for an acknowledgement.
pub fn first_state(place: [u32; PLACES]) -> u64
    ensures { result ≡ (begun (optional place acknowledgement_requested)).state }
{
    if optional(place, ACKNOWLEDGEMENT_GIVEN) {
        WAITING
    } else {
        0
    }
}
