#![tactic(auto)]

// The frames of SS-DGNA, ten kinds of them, read from bits and written as bits.
ghost use Rattle.std.specs.Prelude.{◌≡◌, length};
ghost use Rattle.layout.specs.Length.{measured_of};
ghost use Rattle.layout.specs.Frame.{blank_of, reading_of, judged_of, written_of, output_of};

pub use layout::{Kind, PLACES, Record, Refused};
use reading::read_frame;
use refusal::Refusal;
pub use table::place;
use writing::{judge_record, measure_record, write_record};

// A record with nothing in it, to start from.
pub fn blank() -> Record
    ensures { result ≡ blank_of }
{
    Record {
        place: [0u32; PLACES],
    }
}

// Reads a frame of `bits` bits: the record, or the refusal with the bit at which the refused element begins.
// Stays: a bit count beside the bytes, since a frame may end inside a byte; reading_of speaks of bytes that are too few, too.
pub fn read(kind: Kind, frame: &[u8], bits: usize) -> Result<Record, Refused>
    ensures { result ≡ reading_of kind frame.now bits }
{
    read_frame(kind, frame, bits)
}

// Whether a record has a code: 4 over the whole record, then 5.
// Stays: kind and values apart, here and below: the kind is told by the caller, and the record's places alone are lent.
pub fn fault(kind: Kind, values: &[u32; PLACES]) -> Result<(), Refusal>
    ensures { result ≡ judged_of kind values.now }
{
    judge_record(kind, values)
}

// How many bits a record's frame has, before a buffer is lent for it; 4 and 5 as `fault` has them.
pub fn length(kind: Kind, values: &[u32; PLACES]) -> Result<usize, Refusal>
    ensures { result ≡ measured_of kind values.now }
{
    measure_record(kind, values)
}

// Writes a record's frame into `out` from the byte `start` on; refusals 4, 5 and 8 leave `out` as it is.
pub fn write(
    kind: Kind,
    values: &[u32; PLACES],
    out: &mut [u8],
    start: usize,
) -> Result<usize, Refusal>
    ensures { (result ≡ written_of kind values.now (length out.old) start)
        × (out.new ≡ output_of kind values.now out.old start) }
{
    write_record(kind, values, out, start)
}
