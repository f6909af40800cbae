// The fields that elements are made of.
ghost use Rattle.std.specs.Prelude.{◌≡◌};
ghost use Rattle.table.specs.Fields.{number_field, choice_field, count_field};

use crate::Field;
use layout::Items;
use refusal::Refusal;

pub const FORM: Field = Field {
    width: 2,
    first: 1,
    codes: 3,
    refusal: Refusal::Reserved,
};

pub const SNA: Field = Field {
    width: 8,
    first: 0,
    codes: 256,
    refusal: Refusal::Reserved,
};

pub const SSI: Field = Field {
    width: 24,
    first: 0,
    codes: 16777216,
    refusal: Refusal::Reserved,
};

pub const EXTENSION: Field = SSI;

pub const LETTER: Field = SNA;

pub const NUMBER_TYPE: Field = Field {
    width: 4,
    first: 1,
    codes: 11,
    refusal: Refusal::Reserved,
};

pub const LETTERS: Field = Field {
    width: 4,
    first: 1,
    codes: 16,
    refusal: Refusal::Reserved,
};

pub const M_BIT: Field = Field {
    width: 1,
    first: 0,
    codes: 1,
    refusal: Refusal::TypeThree,
};

// A list's count.
// Stays: a value for each of two kinds, in two lines; a trait over them would be longer.
pub fn count_field(items: Items) -> Field
    ensures { result ≡ count_field items }
{
    match items {
        Items::Numbers => NUMBER_TYPE,
        Items::Letters => LETTERS,
    }
}

// A plain number of so many bits.
pub fn number(width: u8) -> Field
    ensures { result ≡ number_field width }
{
    Field {
        width: usize::from(width),
        first: 0,
        codes: 1u32 << (width % 32),
        refusal: Refusal::Reserved,
    }
}

// So many bits, of which so many codes have a meaning.
pub fn choice(width: u8, codes: u8) -> Field
    ensures { result ≡ choice_field width codes }
{
    Field {
        width: usize::from(width),
        first: 1,
        codes: u32::from(codes),
        refusal: Refusal::Reserved,
    }
}
