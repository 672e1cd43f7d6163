// Types of scalars, and ranges of their values: the range rules of native.rs, each as a function of ranges.
#![tactic(auto)]

pub mod arithmetic;
pub mod corners;
pub mod typed;

ghost use Rattle.std.specs.Prelude.{◌≡◌};
ghost use Rattle.word.specs.Value.{val, int_of, signed};
ghost use Rattle.range.specs.Interval.{bounds_of, point, within, nonnegative};

use word::{Signed, Word};

#[derive(Clone, Copy, PartialEq, Eq)]
pub enum ScalarType {
    Bool,
    Bits(u16),
    Integer,
}

// The integers from min to max. Bits are read as non-negative.
#[derive(Clone, Copy, PartialEq, Eq)]
pub struct Range {
    pub min: Signed,
    pub max: Signed,
}

impl Range {
    pub fn singleton(value: Signed) -> Range
        ensures { bounds_of result ≡ point (int_of value) }
    {
        Range {
            min: value,
            max: value,
        }
    }

    // The range between the integers of two patterns.
    pub fn of_patterns(min: Word, max: Word) -> Range
        ensures low { int_of result.min ≡ signed 128 (val min) }
        ensures high { int_of result.max ≡ signed 128 (val max) }
    {
        Range {
            min: min.as_signed(),
            max: max.as_signed(),
        }
    }

    pub fn contains(self, value: Signed) -> bool
        ensures { result ≡ within (bounds_of self) (int_of value) }
    {
        self.min <= value && value <= self.max
    }

    pub fn is_nonnegative(self) -> bool
        ensures { result ≡ nonnegative (bounds_of self) }
    {
        !self.min.is_negative()
    }
}
