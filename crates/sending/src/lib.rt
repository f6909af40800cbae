#![tactic(auto)]

// The orders that go out to the radios of a group, in lent room.
ghost use Rattle.std.specs.Prelude.{◌≤◌, ◌+◌, length, map, ◌≡◌};
ghost use Rattle.std.proofs.Math.Seq.{paste};
ghost use Rattle.rules.specs.Outgoing.{orders};
ghost use Rattle.replies.specs.Sending.{order_row};
ghost use Rattle.sending.specs.Pushed.{pushed};

use order::{GroupKey, Gtsi, Itsi, RadioKey};
use rows::ORDER_WORDS;

// The kinds of an outgoing order.
// Stays: kinds are words: order_row and push_orders promise the row of any (order-row-unique).
pub const ASSIGN: u64 = 0;

pub const DEASSIGN: u64 = 1;

// An outgoing order as a row of the room.
// Stays: it promises the row of any kind word, so a kind is a word, and no enum.
pub fn order_row(kind: u64, radio: RadioKey, group: GroupKey) -> [u64; ORDER_WORDS]
    ensures { result ≡ order_row (record { kind = kind; radio = radio.0; group = group.0 }) }
{
    let to = Itsi::from(radio);
    let of = Gtsi::from(group);
    [
        kind,
        u64::from(to.0),
        u64::from(to.1),
        u64::from(of.0),
        u64::from(of.1),
    ]
}

// An order of this kind to each radio, from place `at` on.
// Stays: the kind is any word, as in order_row.
fn push_rows(out: &mut [[u64; ORDER_WORDS]], at: usize, kind: u64, group: GroupKey, radios: &[u64])
    requires { at + length radios.now ≤ length out.old }
    ensures { out.new ≡ paste out.old at (map order_row (orders kind group.0 radios.now))
        (length radios.now) }
{
    // Stays: by index, since behind a zip of iter_mut a proof knows the slice's length and no element.
    for (i, radio) in radios.iter().enumerate() {
        out[at + i] = order_row(kind, RadioKey(*radio), group);
    }
}

// An order of this kind to each radio, from place `at` on; nothing where they do not fit.
// Stays: the kind is any word, as in order_row.
pub fn push_orders(
    out: &mut [[u64; ORDER_WORDS]],
    at: usize,
    kind: u64,
    group: GroupKey,
    radios: &[u64],
)
    ensures { out.new ≡ pushed out.old at (map order_row (orders kind group.0 radios.now)) }
{
    if at <= out.len() && radios.len() <= out.len() - at {
        push_rows(out, at, kind, group, radios);
    }
}
