#![tactic(auto)]

// Bit fields of byte slices, highest bit first.
// A field lies in one to five whole bytes. These are taken as one number, to read the field and to lay it.
ghost use Rattle.std.specs.Prelude.{◌≡◌, ◌+◌, ◌*◌, ◌%◌, ◌^◌, ◌≤◌, ◌<◌, length};
ghost use Rattle.bits.specs.Field.{field_at, first_two, put_at};
ghost use Rattle.bits.specs.Bits.{value, bits_of};
ghost use Rattle.bits.specs.Window.{value_at, joined_bits, bytes_in};

// The lowest `n` bits of `x`.
fn low(x: u64, n: usize) -> u64
    requires { n ≤ 32 }
    ensures { result ≡ x % 2 ^ n }
{
    x % (1u64 << n)
}

// Up to five bytes as one number.
fn joined_bytes(bytes: &[u8]) -> u64
    requires { length bytes.now ≤ 5 }
    ensures { result ≡ value (bits_of bytes.now) }
{
    let mut number = 0;
    for &byte in bytes {
        number = number * 256 + u64::from(byte);
    }
    number
}

// The number in the `width` bits from `at` on.
fn field_value(frame: &[u8], at: usize, width: usize) -> u32
    requires { (at + width ≤ 8 * length frame.now) × (width ≤ 32) }
    ensures { result ≡ value_at frame.now at width }
{
    if width == 0 {
        return 0;
    }
    let first = at / 8;
    let from = at % 8;
    let count = (from + width).div_ceil(8);
    let whole = joined_bytes(&frame[first..first + count]);
    low(whole >> (8 * count - (from + width)), width) as u32
}

// A frame, its bit count and the place of the next field, kept together.
#[derive(Clone, Copy)]
pub struct Reader<'a> {
    pub frame: &'a [u8],
    pub bits: usize,
    pub at: usize,
}

impl<'a> Reader<'a> {
    // A reader at the first bit of a frame.
    pub fn new(frame: &'a [u8], bits: usize) -> Self
        ensures { (result.frame ≡ frame.entry) × (result.bits ≡ bits) × (result.at ≡ 0) }
    {
        Reader { frame, bits, at: 0 }
    }

    // The reader at another place of its frame.
    pub fn moved(self, at: usize) -> Self
        ensures { (result.frame ≡ self.entry.frame) × (result.bits ≡ self.entry.bits) × (result.at ≡ at) }
    {
        Reader { at, ..self }
    }

    // The field of `width` bits at the reader's place; none where the bits end inside it, or it is wider than 32 bits.
    pub fn take(self, width: usize) -> Option<u32>
        ensures { result ≡ field_at self.entry.frame.now self.entry.bits self.entry.at width }
    {
        let Reader { frame, bits, at } = self;
        // Stays: test by test; joined by `||` they miss a bar: echo's instructions a line, as docs/SPEED.md counts them, rise by 7 to 9 per cent.
        if frame.len() < bits.div_ceil(8) {
            return None;
        }
        if bits < at {
            return None;
        }
        if bits - at < width {
            return None;
        }
        if 32 < width {
            return None;
        }
        Some(field_value(frame, at, width))
    }
}

// The field of `width` bits at `at` of a frame, through a reader. Whoever calls it needs no reader of their own.
// Stays: frame and bit count are any that a caller has, as field-from-unique says; `Reader` is the struct that keeps them together.
pub fn field_from(frame: &[u8], bits: usize, at: usize, width: usize) -> Option<u32>
    ensures { result ≡ field_at frame.now bits at width }
{
    Reader::new(frame, bits).moved(at).take(width)
}

// The two fields at the first bits of a frame, one behind the other, through one reader, which is taken from, moved and taken from again.
// Stays: frame and bit count are any that a caller has, as first-two-unique says.
pub fn first_two(
    frame: &[u8],
    bits: usize,
    first: usize,
    second: usize,
) -> (Option<u32>, Option<u32>)
    ensures { result ≡ first_two frame.now bits first second }
{
    let reader = Reader::new(frame, bits);
    (reader.take(first), reader.moved(first).take(second))
}

// `high`, and the lowest `n` bits of `x` after it, as one number.
fn join(high: u64, x: u64, n: usize) -> u64
    requires { (n ≤ 32) × (high * 2 ^ n < 2 ^ 63) }
    ensures { result ≡ high * 2 ^ n + x % 2 ^ n }
{
    (high << n) + low(x, n)
}

// The highest `from` bits of `first`, the lowest `width` of `value` and the lowest `after` of `last`, as one number.
fn joined(first: u8, from: usize, value: u32, width: usize, last: u8, after: usize) -> u64
    requires { (from < 8) × (width ≤ 32) × (after < 8) }
    ensures { result ≡ joined_bits first from value width last after }
{
    let before = (first as u64) >> (8 - from);
    join(join(before, value as u64, width), last as u64, after)
}

// Lays a number into bytes, the lowest last.
fn lay_number(bytes: &mut [u8], number: u64)
    ensures { bytes.new ≡ bytes_in (length bytes.old) number }
{
    let mut rest = number;
    // Stays: by index, since behind a rev of iter_mut a proof knows the slice's length and no element.
    for i in (0..bytes.len()).rev() {
        bytes[i] = (rest % 256) as u8;
        rest /= 256;
    }
}

// Lays the lowest `width` bits of `value` into the bits of `out` from `at` on.
// Changes nothing where the field ends past `out`, or is wider than 32 bits.
// Stays: at and width apart, as `Reader` keeps the place and is told a width alone; put-field-unique speaks of any two.
pub fn put_field(out: &mut [u8], at: usize, width: usize, value: u32)
    ensures { out.new ≡ put_at out.old at width value }
{
    if 32 < width {
        return;
    }
    let first = at / 8;
    let from = at % 8;
    let count = (from + width).div_ceil(8);
    if out.len() < first + count {
        return;
    }
    if width == 0 {
        return;
    }
    let after = 8 * count - (from + width);
    let number = joined(
        out[first],
        from,
        value,
        width,
        out[first + count - 1],
        after,
    );
    lay_number(&mut out[first..first + count], number);
}
