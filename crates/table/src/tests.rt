// What is asked of a record on the way over a table.
ghost use Rattle.std.specs.Prelude.{◌≡◌, suc, eqb, get_or, take, drop};
ghost use Rattle.layout.specs.Row.{all, present};
ghost use Rattle.layout.specs.Shape.{conditions_of};

use crate::place::NO;
use layout::When;

// NO, as `holds` is asked for it.
pub const IF_NO: u8 = NO as u8;

// Whether a place holds a value; a place past the end holds 0.
pub fn holds(values: &[u32], place: u8, value: u8) -> bool
    ensures { result ≡ eqb (get_or values.now place 0) value }
{
    values.get(usize::from(place)).copied().unwrap_or(0) == u32::from(value)
}

// Whether an element is there. In a chain the last condition is tested first: where an element is not there, it is mostly that which fails.
#[tactic(auto, unfolding(layout::specs::Row::present))]
pub fn there(values: &[u32], when: When) -> bool
    ensures { result ≡ present values.now (conditions_of when) }
{
    match when {
        When::Always => true,
        When::Is(place, value) => holds(values, place, value),
        When::All(outer, inner, place, value) => {
            holds(values, place, value) && holds(values, outer, 1) && holds(values, inner, 1)
        }
    }
}

// Whether every place after `o` and before `to` holds 0.
pub fn nothing_since(values: &[u32], o: u8, to: usize) -> bool
    ensures { result ≡ all (λ v. eqb v 0) (drop (suc o) (take to values.now)) }
{
    values
        .iter()
        .take(to)
        .skip(usize::from(o) + 1)
        .all(|&v| v == 0)
}
