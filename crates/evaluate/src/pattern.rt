// Patterns of 128 bits: the low bits, and signed readings of a field.
ghost use Rattle.std.specs.Prelude.{◌≡◌, min, ◌-◌, ◌%◌, ◌^◌};
ghost use Rattle.word.specs.Value.{val, int_of, value_of, number_of};
ghost use Rattle.word.specs.Option.{mapped};
ghost use Rattle.evaluate.specs.Evaluate.{extended, reduced};
ghost use Rattle.evaluate.specs.I128 as i128;

use range::ScalarType;
use range::typed::mask;
use word::{Signed, Word};

// The pattern of a signed answer.
pub fn pattern_of(answer: Option<Signed>) -> Option<Word>
    ensures { number_of result ≡ mapped i128.as_u128 (value_of answer) }
{
    answer.map(|value| value.as_word())
}

// The low bits of a pattern: Rust's `value & mask(width)`.
pub fn low_bits(value: Word, width: u16) -> Word
    ensures { val result ≡ val value % 2 ^ width }
{
    value & mask(width)
}

// How many of the 128 bits stand above a field of that width.
pub(crate) fn bits_above(width: u16) -> u32
    ensures { result ≡ 128 - width }
{
    128u32.saturating_sub(u32::from(width))
}

// A field of that width, read in two's complement.
pub fn extended(value: Word, width: u16) -> Signed
    ensures { int_of result ≡ extended width (val value) }
{
    let above = bits_above(width);
    value.unbounded_shl(above).as_signed().unbounded_shr(above)
}

// Rust's u32::try_from(count).unwrap_or(u32::MAX).
#[tactic(auto, unfolding(word::specs::Value::val))]
pub fn to_u32(count: Word) -> u32
    ensures { result ≡ min (val count) (2 ^ 32 - 1) }
{
    if count.hi == 0 {
        u32::try_from(count.lo).unwrap_or(u32::MAX)
    } else {
        u32::MAX
    }
}

// A value as one of its type: the low bits for Bits.
pub fn reduced(ty: ScalarType, value: Word) -> Word
    ensures { val result ≡ reduced ty (val value) }
{
    match ty {
        ScalarType::Bits(width) => low_bits(value, width),
        _ => value,
    }
}
