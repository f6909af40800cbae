// Single values of a record's places.
ghost use Rattle.std.specs.Prelude.{◌-◌, ◌<◌, ◌≡◌};
ghost use Rattle.layout.specs.Frame.{places};
ghost use Rattle.rules.specs.Recorded.{optional};

use layout::PLACES;
use table::place::define::O_BIT;

// A choice's code: its place holds it one up.
// Stays: a record's places hold choices so, as its table lays down, and first-state-unique and order-row-unique are over such places.
pub fn one_down(value: u32) -> u32
    ensures { result ≡ value - 1 }
{
    value.saturating_sub(1)
}

// Whether an optional element of a DEFINE record is there; its P-bit is at `k`.
pub fn optional(place: [u32; PLACES], k: usize) -> bool
    requires { k < places }
    ensures { result ≡ optional place k }
{
    place[O_BIT] == 1 && place[k] == 1
}
