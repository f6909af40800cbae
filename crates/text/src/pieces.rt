// Pieces of text. Each function puts one into `out`, from a place on, and answers the place behind it.
ghost use Rattle.std.specs.Prelude.{◌≡◌, [], ◌∷◌, ◌+◌, ◌≤◌, length};
ghost use Rattle.text.specs.Digits.{digits_text};
ghost use Rattle.text.specs.Text.{number_text};
ghost use Rattle.text.specs.Put.{Put};

use house::digit_of;

// One character.
pub fn put_byte(byte: u8, out: &mut [u8], at: usize) -> usize
    requires { at + 1 ≤ length out.old }
    ensures { Put (byte ∷ []) out.old out.new at result }
{
    out[at] = byte;
    at + 1
}

// So many digits of a value, its lowest.
pub fn put_digits(value: u64, width: usize, out: &mut [u8], at: usize) -> usize
    requires { at + width ≤ length out.old }
    ensures { Put (digits_text value width) out.old out.new at result }
{
    let mut rest = value;
    // Stays: by index, since behind a rev of iter_mut a proof knows the slice's length and no element.
    for i in (0..width).rev() {
        out[at + i] = digit_of((rest % 16) as u8);
        rest /= 16;
    }
    at + width
}

// Both parts of a number, six digits each, parted by a slash.
pub fn put_parts(ssi: u64, extension: u64, out: &mut [u8], at: usize) -> usize
    requires { at + 13 ≤ length out.old }
    ensures { Put (number_text ssi extension) out.old out.new at result }
{
    let at = put_digits(ssi, 6, out, at);
    let at = put_byte(b'/', out, at);
    put_digits(extension, 6, out, at)
}

// A number behind a mark.
pub fn put_number(mark: u8, ssi: u64, extension: u64, out: &mut [u8], at: usize) -> usize
    requires { at + 14 ≤ length out.old }
    ensures { Put (mark ∷ number_text ssi extension) out.old out.new at result }
{
    let at = put_byte(mark, out, at);
    put_parts(ssi, extension, out, at)
}

// A text as it stands.
pub fn put_text(text: &[u8], out: &mut [u8], at: usize) -> usize
    requires { at + length text.now ≤ length out.old }
    ensures { Put text.now out.old out.new at result }
{
    let end = at + text.len();
    out[at..end].copy_from_slice(text);
    end
}
