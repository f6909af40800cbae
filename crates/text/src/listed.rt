// Items whose texts stand one behind the other: the rows of a list, the owners of a show.
ghost use Rattle.std.specs.Prelude.{◌≡◌, ◌+◌, ◌*◌, ◌≤◌, ℕ, List, length};
ghost use Rattle.std.proofs.Common.{lit≤};
ghost use Rattle.text.specs.Text.{joined, kind_letter, kind_text, order_text, member_text, next_owner};
ghost use Rattle.text.specs.Put.{Put};

use crate::pieces::{put_byte, put_digits, put_number};
use order::Itsi;
use rows::{
    ENTRY_RADIO, ENTRY_STATE, ENTRY_WORDS, ORDER_GROUP, ORDER_KIND, ORDER_RADIO, ORDER_WORDS,
};

// An item's text; none is longer than an order's, 30 bytes.
pub trait Item {
    ghost text: { Self → List ℕ };

    // Stays: `out` and `at` go apart: a struct of both would hold the caller's `&mut`, and each method would have to say that it still does.
    fn put(&self, out: &mut [u8], at: usize) -> usize
        requires { at + 30 ≤ length out.old }
        ensures { Put (text self.now) out.old out.new at result };

    ghost short: { (item : Self) → length (text item) ≤ 30 };
}

// The letter of an order's kind: assign or deassign.
// Stays: a row is of words, as the ledger's lent rows are, and its kind is any word.
fn kind_letter(kind: u64) -> u8
    ensures { result ≡ kind_letter kind }
{
    if kind == 0 { b'a' } else { b'd' }
}

// An order's kind.
// Stays: the kind is any word, as in kind_letter.
fn put_kind(kind: u64, out: &mut [u8], at: usize) -> usize
    requires { at + 2 ≤ length out.old }
    ensures { Put (kind_text kind) out.old out.new at result }
{
    out[at] = b' ';
    out[at + 1] = kind_letter(kind);
    at + 2
}

// An order: its kind, radio and group.
impl Item for [u64; ORDER_WORDS] {
    ghost text = { order_text };

    fn put(&self, out: &mut [u8], at: usize) -> usize {
        let at = put_kind(self[ORDER_KIND], out, at);
        let at = put_number(b':', self[ORDER_RADIO], self[ORDER_RADIO + 1], out, at);
        put_number(b':', self[ORDER_GROUP], self[ORDER_GROUP + 1], out, at)
    }

    ghost short = { λ row. lit≤ tt };
}

// A radio and its state.
impl Item for [u64; ENTRY_WORDS] {
    ghost text = { member_text };

    fn put(&self, out: &mut [u8], at: usize) -> usize {
        let at = put_number(b' ', self[ENTRY_RADIO], self[ENTRY_RADIO + 1], out, at);
        let at = put_byte(b'=', out, at);
        put_digits(self[ENTRY_STATE], 1, out, at)
    }

    ghost short = { λ row. lit≤ tt };
}

// An owner behind another.
impl Item for Itsi {
    ghost text = { next_owner };

    fn put(&self, out: &mut [u8], at: usize) -> usize {
        put_number(b',', u64::from(self.0), u64::from(self.1), out, at)
    }

    ghost short = { λ owner. lit≤ tt };
}

// Each item, one behind the other.
pub fn put_each<T: Item>(items: &[T], out: &mut [u8], at: usize) -> usize
    requires { at + 30 * length items.now ≤ length out.old }
    ensures { Put (joined T.text items.now) out.old out.new at result }
{
    let mut next = at;
    for item in items {
        next = item.put(out, next);
    }
    next
}
