#![tactic(auto)]

// House text: one frame a line, in upper-case hexadecimal digits.
ghost use Rattle.std.specs.Prelude.{◌≡◌, [], ◌∷◌, ◌+◌, ◌*◌, ◌%◌, ◌/◌, ◌≤◌, ◌<◌, length, take, is_some, OnSome};
ghost use Rattle.std.proofs.lemmas.List.Edits.{sets};
ghost use Rattle.house.specs.Hex.{digit_value, digit_of, all_digits, bytes_from, digits_of};
ghost use Rattle.house.specs.Heading.{headed, heading_of, split_of};
ghost use Rattle.house.specs.Unpacked.{Unpacked};
ghost use Rattle.bits.specs.Bits.{bytes_for};
ghost use Rattle.layout.specs.Frame.{reading_of};
ghost use Rattle.house.specs.Echo.{two_bytes, within, refused_at, taken, anew, answer_to, echo_line, echo_within};
ghost use Rattle.house.specs.Sent.{Sent};

use frame::{Kind, PLACES, read, write};
use refusal::Refusal;

// The most digits of a line, and the bytes that they stand for: kind, bit count and frame.
const LINE_DIGITS: usize = 432;

const LINE_BYTES: usize = 216;

const FRAME_BYTES: usize = 213;
// The longest reply: A and a line.
const REPLY: usize = 433;

// The value of every character, so that a digit costs one look; 16 where it is no digit.
// Stays: 16 for what is no digit, as digit_value says, on which echo-line-unique rests.
static VALUES: [u8; 256] = [
    16, 16, 16, 16, 16, 16, 16, 16, 16, 16, 16, 16, 16, 16, 16, 16, 16, 16, 16, 16, 16, 16, 16, 16,
    16, 16, 16, 16, 16, 16, 16, 16, 16, 16, 16, 16, 16, 16, 16, 16, 16, 16, 16, 16, 16, 16, 16, 16,
    0, 1, 2, 3, 4, 5, 6, 7, 8, 9, 16, 16, 16, 16, 16, 16, 16, 10, 11, 12, 13, 14, 15, 16, 16, 16,
    16, 16, 16, 16, 16, 16, 16, 16, 16, 16, 16, 16, 16, 16, 16, 16, 16, 16, 16, 16, 16, 16, 16, 16,
    16, 16, 16, 16, 16, 16, 16, 16, 16, 16, 16, 16, 16, 16, 16, 16, 16, 16, 16, 16, 16, 16, 16, 16,
    16, 16, 16, 16, 16, 16, 16, 16, 16, 16, 16, 16, 16, 16, 16, 16, 16, 16, 16, 16, 16, 16, 16, 16,
    16, 16, 16, 16, 16, 16, 16, 16, 16, 16, 16, 16, 16, 16, 16, 16, 16, 16, 16, 16, 16, 16, 16, 16,
    16, 16, 16, 16, 16, 16, 16, 16, 16, 16, 16, 16, 16, 16, 16, 16, 16, 16, 16, 16, 16, 16, 16, 16,
    16, 16, 16, 16, 16, 16, 16, 16, 16, 16, 16, 16, 16, 16, 16, 16, 16, 16, 16, 16, 16, 16, 16, 16,
    16, 16, 16, 16, 16, 16, 16, 16, 16, 16, 16, 16, 16, 16, 16, 16, 16, 16, 16, 16, 16, 16, 16, 16,
    16, 16, 16, 16, 16, 16, 16, 16, 16, 16, 16, 16, 16, 16,
];

// The digit of every value below 16.
static DIGITS: [u8; 16] = *b"0123456789ABCDEF";

// The value of one character.
fn value_of(character: u8) -> u8
    ensures { result ≡ digit_value character }
{
    VALUES[usize::from(character)]
}

// The digit of a value below 16.
fn digit(value: u8) -> u8
    requires { value < 16 }
    ensures { result ≡ digit_of value }
{
    DIGITS[usize::from(value)]
}

// The digit of a value's lowest four bits.
pub fn digit_of(value: u8) -> u8
    ensures { result ≡ digit_of (value % 16) }
{
    digit(value % 16)
}

// Takes bytes out of their digits; nothing where a character is no digit.
fn take_bytes(text: &[u8], bytes: &mut [u8]) -> Option<()>
    requires even { length text.now % 2 ≡ 0 }
    requires room { length text.now / 2 ≤ length bytes.old }
    ensures good { is_some result ≡ all_digits text.now }
    ensures stored { OnSome result (bytes.new ≡ sets bytes.old 0 (bytes_from text.now)) }
{
    // 16 comes in with a character that is no digit, and stays.
    let mut seen = 0u8;
    let (pairs, _) = text.as_chunks::<2>();
    // Stays: by index, since behind a zip of iter_mut a proof knows the slice's length and no element.
    for (i, pair) in pairs.iter().enumerate() {
        let high = value_of(pair[0]);
        let low = value_of(pair[1]);
        seen = seen | high | low;
        bytes[i] = high % 16 * 16 | low;
    }
    (seen < 16).then_some(())
}

// The bytes that hold a number of bits.
fn bytes_for(bits: usize) -> usize
    ensures { result ≡ bytes_for bits }
{
    bits.div_ceil(8)
}

// A number of 16 bits in two bytes.
fn two_bytes(n: usize) -> [u8; 2]
    ensures { result ≡ two_bytes n }
{
    ((n % 65536) as u16).to_be_bytes()
}

// The number that two bytes hold.
fn bit_count(high: u8, low: u8) -> usize
    ensures { (result ≡ high * 256 + low) × (result < 65536) }
{
    usize::from(u16::from_be_bytes([high, low]))
}

// The heading that the first bytes of a line of so many digits name.
fn heading_of(bytes: &[u8; LINE_BYTES], digits: usize) -> Option<(Kind, usize)>
    ensures { result ≡ headed bytes.now digits }
{
    let bits = bit_count(bytes[1], bytes[2]);
    if digits != 6 + 2 * bytes_for(bits) {
        return None;
    }
    let Ok(kind) = Kind::try_from(bytes[0]) else {
        return None;
    };
    Some((kind, bits))
}

// Takes a line's bytes into `bytes`, which has room for the longest, and the heading out of them.
fn unpack(line: &[u8], bytes: &mut [u8; LINE_BYTES]) -> Option<(Kind, usize)>
    ensures { Unpacked line.now bytes.old bytes.new result }
{
    let digits = line.len();
    if digits < 6 || LINE_DIGITS < digits || digits % 2 == 1 {
        return None;
    }
    take_bytes(line, bytes)?;
    heading_of(bytes, digits)
}

// The kind and the bit count of a line; nothing where the line is bad.
pub fn heading(line: &[u8]) -> Option<(Kind, usize)>
    ensures { result ≡ heading_of line.now }
{
    let mut bytes = [0u8; LINE_BYTES];
    unpack(line, &mut bytes)
}

// The part of a line that holds the frame's digits; the empty part where the line is bad.
pub fn split(line: &[u8]) -> &[u8]
    ensures { result.now ≡ split_of line.now }
{
    match heading(line) {
        Some(_) => &line[6..],
        None => &line[..0],
    }
}

// Puts the two digits of a byte at `at`.
// Stays: digits by hand, since the contract names each byte, and the kit's hex gives lower-case ones.
fn put_byte(byte: u8, out: &mut [u8], at: usize)
    requires { at + 1 < length out.old }
    ensures { out.new ≡ sets out.old at (digits_of (byte ∷ [])) }
{
    out[at] = digit(byte / 16);
    out[at + 1] = digit(byte % 16);
}

// Puts the digits of bytes from `at` on.
fn put_bytes(bytes: &[u8], out: &mut [u8], at: usize)
    requires { at + 2 * length bytes.now ≤ length out.old }
    ensures { out.new ≡ sets out.old at (digits_of bytes.now) }
{
    // Stays: by index, since behind a zip of iter_mut a proof knows the slice's length and no element.
    for (i, byte) in bytes.iter().enumerate() {
        put_byte(*byte, out, at + 2 * i);
    }
}

// Answers R, the refusal's number and the bit at which the refused element begins.
fn told_at(refusal: Refusal, bit: usize, out: &mut [u8; REPLY]) -> usize
    ensures { Sent (refused_at refusal bit) out.old out.new result }
{
    let end = refusal.put(out);
    out[end] = b' ';
    put_bytes(&two_bytes(bit), out, end + 1);
    end + 5
}

// The same at the front of `out`; nothing where that has no room for the longest reply.
pub fn refuse_at(refusal: Refusal, bit: usize, out: &mut [u8]) -> usize
    ensures { Sent (within (length out.old) (refused_at refusal bit)) out.old out.new result }
{
    match out.first_chunk_mut() {
        Some(front) => told_at(refusal, bit, front),
        None => 0,
    }
}

// Answers A and the line of a frame whose bytes are the first of `bytes`.
fn accept(kind: Kind, bits: usize, bytes: &[u8; FRAME_BYTES], out: &mut [u8; REPLY]) -> usize
    ensures { Sent (taken kind bits (take (bytes_for bits) bytes.now)) out.old out.new result }
{
    let count = bytes_for(bits).min(FRAME_BYTES);
    let [high, low] = two_bytes(bits);
    out[0] = b'A';
    put_bytes(&[u8::from(kind), high, low], out, 1);
    put_bytes(&bytes[..count], out, 7);
    7 + 2 * count
}

// Answers with the line that the writer makes of a record.
fn remake(kind: Kind, values: &[u32; PLACES], out: &mut [u8; REPLY]) -> usize
    ensures { Sent (anew kind values.now) out.old out.new result }
{
    let mut bytes = [0u8; FRAME_BYTES];
    match write(kind, values, &mut bytes, 0) {
        Ok(bits) => accept(kind, bits, &bytes, out),
        Err(refusal) => refusal.put(out),
    }
}

// Answers to what the reader finds in a frame.
// Stays: `bits` beside the frame's bytes, as a slice does not tell how many bits of its last byte count.
fn answer(kind: Kind, frame: &[u8], bits: usize, out: &mut [u8; REPLY]) -> usize
    ensures { Sent (answer_to kind (reading_of kind frame.now bits)) out.old out.new result }
{
    match read(kind, frame, bits) {
        Ok(record) => remake(kind, &record.place, out),
        Err(refused) => told_at(refused.refusal, refused.bit, out),
    }
}

// Answers a line.
fn reply(line: &[u8], out: &mut [u8; REPLY]) -> usize
    ensures { Sent (echo_line line.now) out.old out.new result }
{
    let mut bytes = [0u8; LINE_BYTES];
    match unpack(line, &mut bytes) {
        Some((kind, bits)) => answer(kind, &bytes[3..line.len() / 2], bits, out),
        None => Refusal::BadLine.put(out),
    }
}

// Answers a line: its length, and the reply at the front of `out`, which has room for the longest or is left as it is.
pub fn echo_line(line: &[u8], out: &mut [u8]) -> usize
    ensures { Sent (echo_within (length out.old) line.now) out.old out.new result }
{
    match out.first_chunk_mut() {
        Some(front) => reply(line, front),
        None => 0,
    }
}
