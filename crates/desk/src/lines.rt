// What a line says: asker, room, frame, lists, group; nothing is asked of the ledger here.
ghost use Rattle.std.specs.Prelude.{◌≤◌, length, IfSome};

use frame::{Kind, Record, Refused};
use ledger::{AnswerKind, GroupAsked, Gtsi, Identity, Itsi, Numbers};
use refusal::Refusal;
use words::{
    Taken, choice, digits, group, identity, kind, mark, number, room, series, series_or_none, word,
};

// The most bytes of a frame.
const FRAME_BYTES: usize = 213;

// Why an order is not carried out: a refusal, or that of its frame, which comes with a bit.
// Stays: two errors of two crates, taken up by `?` and answered apart.
#[derive(Clone, Copy)]
pub enum Failure {
    Order(Refusal),
    Frame(Refused),
}

impl From<Refusal> for Failure {
    fn from(refusal: Refusal) -> Self {
        Failure::Order(refusal)
    }
}

impl From<Refused> for Failure {
    fn from(refused: Refused) -> Self {
        Failure::Frame(refused)
    }
}

// What a D says: asker, room, and the house text of a DEFINE of so many bits.
#[derive(Clone, Copy)]
pub struct Definition<'a> {
    pub asker: Itsi,
    pub size: u64,
    pub text: &'a [u8],
    pub bits: usize,
}

// What an X says: asker, room, groups, delete, deassign, radios, acknowledgement asked for.
// Stays: the Y and N of the line itself, as ledger::delete takes them.
#[derive(Clone, Copy)]
pub struct Deletion {
    pub asker: Itsi,
    pub size: u64,
    pub named: Numbers,
    pub remove: bool,
    pub deassign: bool,
    pub radios: Option<Numbers>,
    pub acknowledgement: bool,
}

// What an A says: radio, group, result, and what it answers.
#[derive(Clone, Copy)]
pub struct Answer {
    pub radio: Itsi,
    pub group: Gtsi,
    pub result: u64,
    pub kind: AnswerKind,
}

// What an H says: asker, group, owners.
#[derive(Clone, Copy)]
pub struct Handing {
    pub asker: Itsi,
    pub group: Identity,
    pub owners: Numbers,
}

// What an L or an S asks: asker and group.
#[derive(Clone, Copy)]
pub struct Question {
    pub asker: Itsi,
    pub group: GroupAsked,
}

// What was read, if the line ends behind it.
pub fn ended<T: Copy>(line: &[u8], taken: Taken<T>) -> Option<T> {
    (taken.next == line.len()).then_some(taken.value)
}

// A radio's number.
fn radio(line: &[u8], at: usize) -> Option<Taken<Itsi>> {
    let taken = number(line, at)?;
    let (ssi, extension) = taken.value;
    Some(Taken {
        value: Itsi(ssi, extension),
        next: taken.next,
    })
}

// The asker and the group behind a line's letter, and the place behind them.
pub fn read_question(line: &[u8]) -> Option<Taken<Question>> {
    let asker = radio(line, 1)?;
    let group = group(line, asker.next)?;
    Some(Taken {
        value: Question {
            asker: asker.value,
            group: group.value,
        },
        next: group.next,
    })
}

// D: asker, room, house text. A frame of another kind is no DEFINE.
pub fn read_definition(line: &[u8]) -> Option<Definition<'_>> {
    let asker = radio(line, 1)?;
    let size = room(line, asker.next)?;
    let text = line.get(mark(line, size.next, b' ')?..)?;
    match house::heading(text)? {
        (Kind::Define, bits) => Some(Definition {
            asker: asker.value,
            size: size.value,
            text,
            bits,
        }),
        _ => None,
    }
}

// The bytes that pairs of digits stand for; how many they are.
fn pack(text: &[u8], bytes: &mut [u8]) -> Option<usize>
    ensures { IfSome result (λ count. count ≤ length bytes.new) }
{
    let (pairs, _) = text.as_chunks::<2>();
    for (byte, pair) in bytes.iter_mut().zip(pairs) {
        *byte = u8::try_from(digits(pair, 0, 2)?.value).ok()?;
    }
    Some(pairs.len().min(bytes.len()))
}

impl<'a> Definition<'a> {
    // The record that the house text holds.
    pub fn record(self) -> Result<Record, Failure> {
        let mut bytes = [0u8; FRAME_BYTES];
        let count = pack(house::split(self.text), &mut bytes).ok_or(Refusal::BadLine)?;
        Ok(frame::read(Kind::Define, &bytes[..count], self.bits)?)
    }
}

// X: asker, room, groups, delete, deassign, radios or none, acknowledgement.
pub fn read_deletion(line: &[u8]) -> Option<Deletion> {
    let asker = radio(line, 1)?;
    let size = room(line, asker.next)?;
    let named = series(line, size.next)?;
    let remove = choice(line, named.next)?;
    let deassign = choice(line, remove.next)?;
    let radios = series_or_none(line, deassign.next)?;
    let acknowledgement = ended(line, choice(line, radios.next)?)?;
    Some(Deletion {
        asker: asker.value,
        size: size.value,
        named: named.value,
        remove: remove.value,
        deassign: deassign.value,
        radios: radios.value,
        acknowledgement,
    })
}

// A: radio, group, result, kind.
pub fn read_answer(line: &[u8]) -> Option<Answer> {
    let radio = radio(line, 1)?;
    let group = number(line, radio.next)?;
    let result = word(line, group.next, 2)?;
    let kind = ended(line, kind(line, result.next)?)?;
    let (ssi, extension) = group.value;
    Some(Answer {
        radio: radio.value,
        group: Gtsi(ssi, extension),
        result: result.value,
        kind,
    })
}

// H: asker, group, owners.
pub fn read_handing(line: &[u8]) -> Option<Handing> {
    let asker = radio(line, 1)?;
    let group = identity(line, asker.next)?;
    let owners = ended(line, series(line, group.next)?)?;
    Some(Handing {
        asker: asker.value,
        group: group.value,
        owners,
    })
}
