#![tactic(auto)]

// The words of a desk's line. A reader takes what stands from a place of the line on, and the place behind it; nothing where something else stands.
ghost use Rattle.std.specs.Prelude.{◌≤◌, ◌<◌, Some, None, ◌≡◌};
ghost use Rattle.house.specs.Hex.{digit_value};
ghost use Rattle.words.specs.Words.{digit_at, stands_at, mark_at, digits_at, word_at, number_at, group_at, room_at, either_at, choice_at, kind_at};
ghost use Rattle.words.specs.Series.{identity_with, named_at, identity_at, item_at, series_at, series_or_none_at};

use order::{GroupAsked, Gtsi, Identity, Numbers};
use rules::AnswerKind;

// The most digits of a word: its value has 64 bits.
const DIGITS: usize = 16;

// The most identities of a list.
const MOST: usize = 10;

// The most places of a room.
const ROOM: u64 = 0x800;

// A value, and the place behind it.
// Stays: both are always there, and what was not taken is None.
#[derive(Clone, Copy)]
pub struct Taken<T> {
    pub value: T,
    pub next: usize,
}

// The value of an upper-case hexadecimal digit.
// Stays: house's value_of looks into a table, for speed, with 16 for what is no digit; here a match says None itself.
#[tactic(auto, unfolding(house::specs::Hex::digit_value))]
fn digit(character: u8) -> Option<u64>
    ensures { result ≡ digit_at character }
{
    match character {
        b'0'..=b'9' => Some(u64::from(character - b'0')),
        b'A'..=b'F' => Some(u64::from(character - b'A') + 10),
        _ => None,
    }
}

// Whether a character stands at a place.
#[tactic(auto, unfolding(crate::specs::Words::stands_at))]
fn stands(line: &[u8], at: usize, character: u8) -> bool
    ensures { result ≡ stands_at line.now at character }
{
    line.get(at).is_some_and(|c| *c == character)
}

// The place behind a character.
#[tactic(auto, unfolding(crate::specs::Words::mark_at))]
pub fn mark(line: &[u8], at: usize, character: u8) -> Option<usize>
    ensures { result ≡ mark_at line.now at character }
{
    stands(line, at, character).then(|| at + 1)
}

// So many digits.
// Stays: line and at apart, since at is another place at each call; width too.
#[tactic(auto, unfolding(crate::specs::Words::digits_at, crate::specs::Words::enough_at))]
pub fn digits(line: &[u8], at: usize, width: usize) -> Option<Taken<u64>>
    ensures { result ≡ digits_at line.now at width }
{
    if DIGITS < width {
        return None;
    }
    let mut value = 0u64;
    for character in line.get(at..)?.get(..width)? {
        value = value << 4 | digit(*character)?;
    }
    Some(Taken {
        value,
        next: at + width,
    })
}

// A blank and so many digits.
pub fn word(line: &[u8], at: usize, width: usize) -> Option<Taken<u64>>
    ensures { result ≡ word_at line.now at width }
{
    digits(line, mark(line, at, b' ')?, width)
}

// So many digits, at most 8, as a number of an order has them.
fn short_digits(line: &[u8], at: usize, width: usize) -> Option<Taken<u32>>
    requires { width ≤ 8 }
    ensures { result ≡ digits_at line.now at width }
{
    let taken = digits(line, at, width)?;
    Some(Taken {
        value: taken.value as u32,
        next: taken.next,
    })
}

// A blank and a NUMBER: its SSI and its extension.
#[tactic(auto, unfolding(crate::specs::Words::number_at))]
pub fn number(line: &[u8], at: usize) -> Option<Taken<(u32, u32)>>
    ensures { result ≡ number_at line.now at }
{
    let ssi = short_digits(line, mark(line, at, b' ')?, 8)?;
    let extension = short_digits(line, mark(line, ssi.next, b'/')?, 8)?;
    Some(Taken {
        value: (ssi.value, extension.value),
        next: extension.next,
    })
}

// A blank and a GROUP: a NUMBER, or an SSI alone.
#[tactic(auto, unfolding(crate::specs::Words::group_at))]
pub fn group(line: &[u8], at: usize) -> Option<Taken<GroupAsked>>
    ensures { result ≡ group_at line.now at }
{
    let ssi = short_digits(line, mark(line, at, b' ')?, 8)?;
    if stands(line, ssi.next, b'/') {
        let whole = number(line, at)?;
        let (ssi, extension) = whole.value;
        return Some(Taken {
            value: GroupAsked::Whole(Gtsi(ssi, extension)),
            next: whole.next,
        });
    }
    Some(Taken {
        value: GroupAsked::Plain(ssi.value),
        next: ssi.next,
    })
}

// A blank and a ROOM.
#[tactic(auto, unfolding(crate::specs::Words::room_at))]
pub fn room(line: &[u8], at: usize) -> Option<Taken<u64>>
    ensures { result ≡ room_at line.now at }
{
    word(line, at, 4).filter(|size| size.value <= ROOM)
}

// A blank and one of two characters, and whether it is the first.
#[tactic(auto, unfolding(crate::specs::Words::either_at))]
fn either(line: &[u8], at: usize, one: u8, other: u8) -> Option<Taken<bool>>
    ensures { result ≡ either_at line.now at one other }
{
    let from = mark(line, at, b' ')?;
    if let Some(next) = mark(line, from, one) {
        return Some(Taken { value: true, next });
    }
    Some(Taken {
        value: false,
        next: mark(line, from, other)?,
    })
}

// A blank and Y or N, and whether it is Y.
pub fn choice(line: &[u8], at: usize) -> Option<Taken<bool>>
    ensures { result ≡ choice_at line.now at }
{
    either(line, at, b'Y', b'N')
}

// A blank and a, for an assignment, or d, for a deassignment.
pub fn kind(line: &[u8], at: usize) -> Option<Taken<AnswerKind>>
    ensures { result ≡ kind_at line.now at }
{
    let taken = either(line, at, b'd', b'a')?;
    let value = if taken.value {
        AnswerKind::Deassignment
    } else {
        AnswerKind::Assignment
    };
    Some(Taken {
        value,
        next: taken.next,
    })
}

// The identity that a form and two values make: the first is the SNA in form 0, else the SSI.
#[tactic(auto, unfolding(crate::specs::Series::identity_with))]
fn identity_of(form: u32, value: u32, extension: u32) -> Identity
    ensures { result ≡ identity_with form value extension }
{
    let (sna, ssi) = if form == 0 { (value, 0) } else { (0, value) };
    Identity {
        form,
        sna,
        ssi,
        extension,
    }
}

// An identity of a list.
#[tactic(auto, unfolding(crate::specs::Series::named_at))]
fn named(line: &[u8], at: usize) -> Option<Taken<Identity>>
    ensures { result ≡ named_at line.now at }
{
    let form = short_digits(line, at, 1)?;
    let value = short_digits(line, mark(line, form.next, b'.')?, 8)?;
    let extension = short_digits(line, mark(line, value.next, b'.')?, 8)?;
    Some(Taken {
        value: identity_of(form.value, value.value, extension.value),
        next: extension.next,
    })
}

// A blank and an identity.
pub fn identity(line: &[u8], at: usize) -> Option<Taken<Identity>>
    ensures { result ≡ identity_at line.now at }
{
    named(line, mark(line, at, b' ')?)
}

// Where the next identity of a list starts that has so many, if there is one: the first at once unless the list ends there, a later one behind a comma.
#[tactic(auto, unfolding(crate::specs::Series::item_at))]
fn item(line: &[u8], at: usize, count: usize) -> Option<usize>
    ensures { result ≡ item_at line.now at count }
{
    if 0 < count {
        return mark(line, at, b',');
    }
    if at < line.len() && !stands(line, at, b' ') {
        return Some(at);
    }
    None
}

// A blank and a LIST.
#[tactic(auto, unfolding(crate::specs::Series::series_at))]
pub fn series(line: &[u8], at: usize) -> Option<Taken<Numbers>>
    ensures { result ≡ series_at line.now at }
{
    let code = short_digits(line, mark(line, at, b' ')?, 1)?;
    let mut identity = [identity_of(0, 0, 0); MOST];
    let mut next = mark(line, code.next, b':')?;
    // Stays: by index, which `item` is asked with; with iter_mut it would be counted beside it.
    for i in 0..MOST {
        let Some(start) = item(line, next, i) else {
            break;
        };
        let taken = named(line, start)?;
        identity[i] = taken.value;
        next = taken.next;
    }
    Some(Taken {
        value: Numbers {
            code: code.value,
            identity,
        },
        next,
    })
}

// A blank and a LIST or a hyphen.
#[tactic(auto, unfolding(crate::specs::Series::series_or_none_at))]
pub fn series_or_none(line: &[u8], at: usize) -> Option<Taken<Option<Numbers>>>
    ensures { result ≡ series_or_none_at line.now at }
{
    if let Some(next) = mark(line, mark(line, at, b' ')?, b'-') {
        return Some(Taken { value: None, next });
    }
    let list = series(line, at)?;
    Some(Taken {
        value: Some(list.value),
        next: list.next,
    })
}
