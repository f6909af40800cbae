// A sample is written into a longer buffer, from a byte on, and read there; what was seen is printed.
use frame::{Kind, Record};
use std::io;

// What the buffer holds before: a byte that no frame here ends with.
const FILLER: u8 = 0xFF;

const BUFFER: usize = 256;

const START: usize = 5;

// Writes a record and reads it again, and prints what was seen, beside the record that is wanted again.
pub fn again(
    rt: &impl Print,
    name: &str,
    kind: Kind,
    values: Record,
    wanted: Record,
) -> io::Result<()> {
    let mut out = [FILLER; BUFFER];
    match frame::write(kind, &values.place, &mut out, START) {
        Ok(bits) => {
            let bytes = used(&out[START..]);
            let alike = frame::read(kind, &out[START..], bits) == Ok(wanted);
            let seen = if alike { "again alike" } else { "otherwise" };
            println!(rt; "{name}: {bits} bits in {bytes} bytes, read {seen}")
        }
        Err(refusal) => println!(rt; "{name}: refused with {refusal}"),
    }
}

// Three samples of a kind, each a record and its frame laid out by hand, so many bits in digits: a shortest, a middle one and a longest.
pub fn three(
    rt: &impl Print,
    name: &str,
    kind: Kind,
    samples: [(Record, usize, &str); 3],
) -> io::Result<()> {
    for (length, (values, bits, digits)) in ["shortest", "middle", "longest"]
        .into_iter()
        .zip(samples)
    {
        print!(rt; "{length} {name}: ")?;
        by_hand(rt, kind, values, bits, digits)?;
    }
    Ok(())
}

// Writes a record, and reads the frame that was laid out by hand; prints whether each gives the other.
fn by_hand(
    rt: &impl Print,
    kind: Kind,
    values: Record,
    bits: usize,
    digits: &str,
) -> io::Result<()> {
    let wanted = laid_out(digits);
    let mut out = [FILLER; BUFFER];
    let laid = frame::write(kind, &values.place, &mut out, START) == Ok(bits)
        && wanted == Some(out);
    let taken = wanted.is_some_and(|bytes| frame::read(kind, &bytes[START..], bits) == Ok(values));
    println!(rt; "{bits} bits, written {}, read {}", told(laid), told(taken))
}

fn told(same: bool) -> &'static str {
    if same { "as by hand" } else { "otherwise" }
}

// How many bytes it is to the last one that is not what it was.
fn used(out: &[u8]) -> usize {
    out.iter()
        .rposition(|&b| b != FILLER)
        .map_or(0, |last| last + 1)
}

// The buffer with the bytes that pairs of digits stand for, from the start byte on; none where they are no whole bytes, or too many.
fn laid_out(digits: &str) -> Option<[u8; BUFFER]> {
    let mut out = [FILLER; BUFFER];
    let bytes = out.get_mut(START..START + digits.len() / 2)?;
    hex::decode_to_slice(digits, bytes).ok()?;
    Some(out)
}
