#![tactic(auto)]

// The text of desk's replies. Each public function puts a reply to the front of `out` and answers its length; where `out` has no room for
// the longest reply it puts nothing and answers 0.
mod listed;
mod parts;
mod pieces;

ghost use Rattle.text.specs.Text.{refusal_text, reply_text, listed_text, shown_text};
ghost use Rattle.text.specs.Put.{Replied};

use listed::{Item, put_each};
use parts::{put_back, put_front};
use pieces::put_byte;
use refusal::Refusal;
use replies::Shown;
use rows::MAX_PAIRS;

// The longest reply: A, and 2,048 orders of 30 bytes.
const LONGEST: usize = 61441;

// What a line is refused with.
pub fn refuse(refusal: Refusal, out: &mut [u8]) -> usize
    ensures { Replied (refusal_text refusal) out.old out.new result }
{
    if out.len() < LONGEST {
        return 0;
    }
    refusal.put(out)
}

// What an order is answered with: A, or the refusal.
pub fn put_reply(reply: Result<(), Refusal>, out: &mut [u8]) -> usize
    ensures { Replied (reply_text reply) out.old out.new result }
{
    if out.len() < LONGEST {
        return 0;
    }
    match reply {
        Ok(()) => put_byte(b'A', out, 0),
        Err(refusal) => refusal.put(out),
    }
}

// What an order that sends, or a list, is answered with; its orders or radios are the first rows, no more than there are.
pub fn put_listed<T: Item>(count: Result<usize, Refusal>, rows: &[T], out: &mut [u8]) -> usize
    ensures { Replied (listed_text T.text count rows.now) out.old out.new result }
{
    if out.len() < LONGEST {
        return 0;
    }
    match count {
        Ok(count) => {
            let first = &rows[..count.min(MAX_PAIRS).min(rows.len())];
            let at = put_byte(b'A', out, 0);
            put_each(first, out, at)
        }
        Err(refusal) => refusal.put(out),
    }
}

// What a show is answered with.
pub fn put_shown(shown: Result<Shown, Refusal>, out: &mut [u8]) -> usize
    ensures { Replied (shown_text shown) out.old out.new result }
{
    if out.len() < LONGEST {
        return 0;
    }
    match shown {
        Ok(shown) => {
            let at = put_front(shown, out);
            put_back(shown, out, at)
        }
        Err(refusal) => refusal.put(out),
    }
}
