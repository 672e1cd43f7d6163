// The values of a type: its mask and its range.
ghost use Rattle.std.specs.Prelude.{◌≡◌, min, ◌-◌, ◌^◌};
ghost use Rattle.word.specs.Value.{val};
ghost use Rattle.range.specs.Interval.{bounds_of, interval_of, bits_interval, type_interval, inside_bits, inside_type, filtered, sign_extended};

use crate::{Range, ScalarType};
use word::{Signed, Word};

// The largest number of that many bits; from 128 on, of 128.
pub fn mask(width: u16) -> Word
    ensures { val result ≡ 2 ^ min width 128 - 1 }
{
    if 128 <= width {
        return Word {
            lo: u64::MAX,
            hi: u64::MAX,
        };
    }
    let ones = (1u64 << (width % 64)) - 1;
    if width & 64 == 0 {
        Word::from(ones)
    } else {
        Word {
            lo: u64::MAX,
            hi: ones,
        }
    }
}

// From 0 to the largest number of that many bits.
#[tactic(auto, using(crate::proofs::Types::mask_signed), unfolding(crate::specs::Interval::bits_interval, word::specs::Value::int_of))]
fn bits_range(width: u16) -> Option<Range>
    ensures { interval_of result ≡ bits_interval width }
{
    (width < 128).then(|| Range {
        min: Signed::ZERO,
        max: mask(width).as_signed(),
    })
}

#[tactic(auto, unfolding(word::specs::Value::int_of))]
pub fn type_range(ty: ScalarType) -> Option<Range>
    ensures { interval_of result ≡ type_interval ty }
{
    match ty {
        ScalarType::Bool => Some(Range {
            min: Signed::ZERO,
            max: Signed::ONE,
        }),
        ScalarType::Bits(width) => bits_range(width),
        ScalarType::Integer => None,
    }
}

impl Range {
    // Does the range lie in Bits(width)? Bits are not negative, and Bits(128) have no other bound.
    pub fn is_in_bits(self, width: u16) -> bool
        ensures { result ≡ inside_bits width (bounds_of self) }
    {
        self.is_nonnegative() && (128 <= width || self.max <= mask(width).as_signed())
    }

    // Does the range lie inside the type?
    pub fn is_inside(self, ty: ScalarType) -> bool
        ensures { result ≡ inside_type ty (bounds_of self) }
    {
        match ty {
            ScalarType::Bool => self.is_in_bits(1),
            ScalarType::Bits(width) => self.is_in_bits(width),
            ScalarType::Integer => true,
        }
    }

    // The range as that of a result in Bits(width), where it lies inside the type.
    #[tactic(auto, using(crate::proofs::Types::filtered_by))]
    pub fn filtered(self, width: u16) -> Option<Range>
        ensures { interval_of result ≡ filtered width (bounds_of self) }
    {
        (width < 128 && self.is_in_bits(width)).then_some(self)
    }

    // What an Integer sign-extended from Bits(width) can be.
    pub fn sign_extended(width: u16) -> Option<Range>
        ensures { interval_of result ≡ sign_extended width }
    {
        if width == 0 || 128 <= width {
            return None;
        }
        let max = mask(width - 1).as_signed();
        Some(Range { min: !max, max })
    }
}
