// The parts of a show's reply: the owners, the name, and the parameters in a fixed sequence.
ghost use Rattle.std.specs.Prelude.{◌≡◌, ◌+◌, ◌*◌, ◌≤◌, length};
ghost use Rattle.rules.specs.Written.{max_owners};
ghost use Rattle.text.specs.Text.{held_letter, early_text, late_text, owners_text, name_text, front_text, back_text};
ghost use Rattle.text.specs.Put.{Put, longest};

use crate::listed::put_each;
use crate::pieces::{put_byte, put_digits, put_parts, put_text};
use house::digit_of;
use order::Itsi;
use replies::Shown;
use rows::{MAX_LETTERS, MAX_OWNERS};

// A parameter's code in one digit; the ledger shows it one up, and 0 where it is absent.
fn held_letter(held: u64) -> u8
    ensures { result ≡ held_letter held }
{
    if held == 0 {
        return b'-';
    }
    digit_of(((held - 1) % 16) as u8)
}

// The parameters in front of the name.
fn early(reference: u64, acknowledged: u64, broadcast: u64) -> [u8; 25]
    ensures { result ≡ early_text reference acknowledged broadcast }
{
    let mut text = *b" set=- call=- broadcast=-";
    text[5] = held_letter(reference);
    text[12] = held_letter(acknowledged);
    text[24] = held_letter(broadcast);
    text
}

// The parameters behind the name.
fn late(class: u64, lifetime: u64, temporary: u64) -> [u8; 31]
    ensures { result ≡ late_text class lifetime temporary }
{
    let mut text = *b" class=- lifetime=- temporary=-";
    text[7] = held_letter(class);
    text[18] = held_letter(lifetime);
    text[30] = held_letter(temporary);
    text
}

// The owners, parted by commas.
fn put_owners(owners: &[Itsi], out: &mut [u8], at: usize) -> usize
    requires { (length owners.now ≤ max_owners) × (at + 13 + 30 * max_owners ≤ length out.old) }
    ensures { (result ≤ at + 13 + 30 * max_owners) × Put (owners_text owners.now) out.old out.new at result }
{
    let Some((first, others)) = owners.split_first() else {
        return at;
    };
    let at = put_parts(u64::from(first.0), u64::from(first.1), out, at);
    put_each(others, out, at)
}

// The letters, two digits each; a name without letters is absent.
fn put_name(name: &[u64], out: &mut [u8], at: usize) -> usize
    requires { (length name.now ≤ 16) × (at + 32 ≤ length out.old) }
    ensures { (result ≤ at + 32) × Put (name_text name.now) out.old out.new at result }
{
    if name.is_empty() {
        return put_byte(b'-', out, at);
    }
    let mut next = at;
    for letter in name {
        next = put_digits(*letter, 2, out, next);
    }
    next
}

// The owners, and the parameters up to the name: 47 bytes, and what the owners take.
pub fn put_front(shown: Shown, out: &mut [u8]) -> usize
    requires { longest ≤ length out.old }
    ensures { (result ≤ 47 + 30 * max_owners) × Put (front_text shown) out.old out.new 0 result }
{
    let owners = &shown.owners[..shown.count.min(MAX_OWNERS)];
    let at = put_text(b"A owners=", out, 0);
    let at = put_owners(owners, out, at);
    let values = early(shown.reference, shown.acknowledged, shown.broadcast);
    put_text(&values, out, at)
}

// The name, and the parameters behind it.
pub fn put_back(shown: Shown, out: &mut [u8], at: usize) -> usize
    requires { at + 69 ≤ length out.old }
    ensures { (result ≤ at + 69) × Put (back_text shown) out.old out.new at result }
{
    let name = &shown.name[..(shown.letters as usize).min(MAX_LETTERS)];
    let at = put_text(b" name=", out, at);
    let at = put_name(name, out, at);
    let values = late(shown.class, shown.lifetime, shown.temporary);
    put_text(&values, out, at)
}
