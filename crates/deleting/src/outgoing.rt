// The orders of a delete, in lent room.
ghost use Rattle.std.specs.Prelude.{◌≤◌, length, ltb, map, ◌≡◌};
ghost use Rattle.store.specs.Lists.{Fills};
ghost use Rattle.store.specs.Storage.{pair_of};
ghost use Rattle.replies.specs.Sending.{order_row};
ghost use Rattle.deleting.specs.Deassigned.{deassign_orders};
ghost use Rattle.deleting.specs.Deletes.{named, listed};

use crate::asked::Asked;
use crate::deassigned::Pairs;
use rows::ORDER_WORDS;

impl<'a> Pairs<'a> {
    // Whether a delete sends more orders than there is room for.
    pub fn exceeds(self, asked: &Asked, room: usize) -> bool
        ensures { result ≡ ltb room (length (deassign_orders asked.now.deassign (listed asked.now) (map pair_of self.entry.rows.now) (named asked.now))) }
    {
        let mut left = room;
        for j in 0..asked.groups.len() {
            let n = self.count_deassigned(asked.groups.at(j), asked);
            if left < n {
                return true;
            }
            left -= n;
        }
        false
    }

    // The orders of a delete, in the lent room; their number is returned.
    pub fn send_orders(self, asked: &Asked, out: &mut [[u64; ORDER_WORDS]]) -> usize
        requires { length (deassign_orders asked.now.deassign (listed asked.now) (map pair_of self.rows.now) (named asked.now)) ≤ length out.old }
        ensures { Fills order_row (deassign_orders asked.now.deassign (listed asked.now) (map pair_of self.entry.rows.now) (named asked.now))
            out.old out.new result }
    {
        let mut at: usize = 0;
        for j in 0..asked.groups.len() {
            at += self.push_deassigned(asked.groups.at(j), asked, out, at);
        }
        at
    }
}
