#![tactic(auto)]

// Writing a frame: one walk over the record judges and counts, and lays nothing; a second lays the bits into the lent bytes, and judges nothing.
mod elements;
mod items;
mod walk;

ghost use Rattle.std.specs.Prelude.{◌≡◌, ◌-◌, ◌*◌, ◌≤◌, T, Ok, ◌++◌, length, drop};
ghost use Rattle.bits.specs.Bits.{bytes_for, bytes_of};
ghost use Rattle.bits.specs.Field.{put_at};
ghost use Rattle.layout.specs.Frame as spec;
ghost use Rattle.writing.specs.Lay.{Over, most_bits};
ghost use Rattle.layout.specs.Length.{measured_of};

use bits::put_field;
use elements::walk_elements;
use layout::{Kind, PLACES};
use refusal::Refusal;
use table::lines::{ACTION_TYPE_BITS, SS_TYPE, SS_TYPE_BITS, action_type};
use walk::{Judge, Lay};

// A whole frame that is known to be writable: the head, then the elements.
// Stays: the public functions are lent a record as its kind and its values, here and in `frame`; a struct of the two would be made and taken apart again.
fn lay_frame(kind: Kind, values: &[u32; PLACES], out: &mut [u8])
    requires { T (spec.valid kind values.now) }
    ensures { Over out.old out.new 0 (spec.write kind values.now) }
{
    put_field(out, 0, SS_TYPE_BITS, SS_TYPE);
    put_field(out, SS_TYPE_BITS, ACTION_TYPE_BITS, action_type(kind));
    let mut lay = Lay { out };
    let _ = walk_elements(&mut lay, kind, values);
}

// The spare bits of the last byte, as 0.
// Stays: `bits` is how long the frame is, and not how long `out` is.
fn lay_spare(out: &mut [u8], bits: usize)
    requires { bits ≤ most_bits }
    ensures { out.new ≡ put_at out.old bits (8 * bytes_for bits - bits) 0 }
{
    put_field(out, bits, (8 - bits % 8) % 8, 0);
}

// A record that is known to be writable, into bytes that have room for it.
// Stays: `bits` is how long the frame is, and not how long `out` is.
fn lay_whole(kind: Kind, values: &[u32; PLACES], out: &mut [u8], bits: usize)
    requires { (measured_of kind values.now ≡ Ok bits) × (bytes_for bits ≤ length out.old) }
    ensures { out.new ≡ bytes_of (spec.write kind values.now) ++ drop (bytes_for bits) out.old }
{
    lay_frame(kind, values, out);
    lay_spare(out, bits);
}

// The same into the part of `out` from the byte `start` on, if there is room.
fn write_part(
    kind: Kind,
    values: &[u32; PLACES],
    out: &mut [u8],
    start: usize,
    bits: usize,
) -> Result<usize, Refusal>
    requires { measured_of kind values.now ≡ Ok bits }
    ensures { (result ≡ spec.written_of kind values.now (length out.old) start)
        × (out.new ≡ spec.output_of kind values.now out.old start) }
{
    if out.len() < start || out.len() - start < bits.div_ceil(8) {
        return Err(Refusal::NoSpace);
    }
    lay_whole(kind, values, &mut out[start..], bits);
    Ok(bits)
}

// Whether a record has a code.
pub fn judge_record(kind: Kind, values: &[u32; PLACES]) -> Result<(), Refusal>
    ensures { result ≡ spec.judged_of kind values.now }
{
    measure_record(kind, values)?;
    Ok(())
}

// How many bits a record's frame has.
pub fn measure_record(kind: Kind, values: &[u32; PLACES]) -> Result<usize, Refusal>
    ensures { result ≡ measured_of kind values.now }
{
    walk_elements(&mut Judge, kind, values)
}

// Writes a record, or refuses it and leaves `out` as it is.
pub fn write_record(
    kind: Kind,
    values: &[u32; PLACES],
    out: &mut [u8],
    start: usize,
) -> Result<usize, Refusal>
    ensures { (result ≡ spec.written_of kind values.now (length out.old) start)
        × (out.new ≡ spec.output_of kind values.now out.old start) }
{
    let bits = measure_record(kind, values)?;
    write_part(kind, values, out, start, bits)
}
