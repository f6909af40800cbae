// The orders of a define, in lent room.
ghost use Rattle.std.specs.Prelude.{◌≤◌, length};
ghost use Rattle.order.specs.Keys.{keys_held};
ghost use Rattle.store.specs.Lists.{Fills};
ghost use Rattle.replies.specs.Sending.{order_row};
ghost use Rattle.defining.specs.Sent.{assign_orders};

use order::{Groups, Radios};
use rows::ORDER_WORDS;
use sending::{ASSIGN, push_orders};

// The orders of a define, groups in list order, then radios in list order; their number is returned.
pub fn assign_orders(named: &Groups, radios: &Radios, out: &mut [[u64; ORDER_WORDS]]) -> usize
    requires { length (assign_orders (keys_held radios.now) (keys_held named.now)) ≤ length out.old }
    ensures { Fills order_row (assign_orders (keys_held radios.now) (keys_held named.now)) out.old out.new result }
{
    let listed = radios.as_slice();
    let mut at: usize = 0;
    for j in 0..named.len() {
        push_orders(out, at, ASSIGN, named.at(j), listed);
        at += listed.len();
    }
    at
}
