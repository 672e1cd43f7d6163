// The ranges of sums, differences, remainders, unsigned quotients, And and shifts.
ghost use Rattle.std.specs.Prelude.{◌≡◌, false, pos};
ghost use Rattle.word.specs.Value.{int_of, value_of, is_neg};
ghost use Rattle.range.specs.Interval.{bounds_of, interval_of, between, add_interval, sub_interval, neg_interval, and_interval, udiv_interval, urem_interval, rem_interval, shl_interval, shr_interval, clamped, shifted, cut};

use crate::Range;
use word::{Signed, Word};

// The range between two results, if both are there.
pub fn between(low: Option<Signed>, high: Option<Signed>) -> Option<Range>
    ensures { interval_of result ≡ between (value_of low) (value_of high) }
{
    Some(Range {
        min: low?,
        max: high?,
    })
}

// The range from 0 up.
#[tactic(auto, unfolding(word::specs::Value::int_of))]
pub(crate) fn up_to(high: Option<Signed>) -> Option<Range>
    ensures { interval_of result ≡ between (Some (pos 0)) (value_of high) }
{
    between(Some(Signed::ZERO), high)
}

// A shift by a range's bound, at most 128.
fn clamped_amount(bound: Signed) -> u32
    ensures { result ≡ clamped (int_of bound) }
{
    let pattern = bound.as_word();
    if pattern < Word::from(128) {
        (pattern.lo % 256) as u32
    } else {
        128
    }
}

// value * 2^amount, where it and 2^amount fit.
#[tactic(auto, unfolding(crate::specs::Interval::shifted))]
fn shifted(value: Signed, amount: Signed) -> Option<Signed>
    ensures { value_of result ≡ shifted (int_of value) (int_of amount) }
{
    let bits = clamped_amount(amount);
    if bits < 127 {
        value.checked_mul(Word::ONE.unbounded_shl(bits).as_signed())
    } else {
        None
    }
}

impl Range {
    #[tactic(auto, unfolding(crate::specs::Interval::add_interval))]
    pub fn add(self, other: Range) -> Option<Range>
        ensures { interval_of result ≡ add_interval (bounds_of self) (bounds_of other) }
    {
        between(
            self.min.checked_add(other.min),
            self.max.checked_add(other.max),
        )
    }

    #[tactic(auto, unfolding(crate::specs::Interval::sub_interval))]
    pub fn sub(self, other: Range) -> Option<Range>
        ensures { interval_of result ≡ sub_interval (bounds_of self) (bounds_of other) }
    {
        between(
            self.min.checked_sub(other.max),
            self.max.checked_sub(other.min),
        )
    }

    #[tactic(auto, unfolding(crate::specs::Interval::neg_interval))]
    pub fn negate(self) -> Option<Range>
        ensures { interval_of result ≡ neg_interval (bounds_of self) }
    {
        between(self.max.checked_neg(), self.min.checked_neg())
    }

    #[tactic(auto, unfolding(crate::specs::Interval::and_interval))]
    pub fn and(self, other: Range) -> Option<Range>
        ensures { interval_of result ≡ and_interval (bounds_of self) (bounds_of other) }
    {
        if self.is_nonnegative() && other.is_nonnegative() {
            up_to(Some(self.max.min(other.max)))
        } else {
            None
        }
    }

    #[tactic(auto, unfolding(crate::specs::Interval::udiv_interval, word::specs::Value::int_of))]
    pub fn divide_unsigned(self, other: Range) -> Option<Range>
        ensures { interval_of result ≡ udiv_interval (bounds_of self) (bounds_of other) }
    {
        if self.is_nonnegative() && Signed::ZERO < other.min {
            up_to(self.max.checked_div(other.min))
        } else {
            None
        }
    }

    #[tactic(auto, unfolding(crate::specs::Interval::urem_interval, word::specs::Value::int_of))]
    pub fn remainder_unsigned(self, other: Range) -> Option<Range>
        ensures { interval_of result ≡ urem_interval (bounds_of self) (bounds_of other) }
    {
        if self.is_nonnegative() && Signed::ZERO < other.min {
            let most = other.max.checked_sub(Signed::ONE)?;
            up_to(Some(self.max.min(most)))
        } else {
            None
        }
    }

    // Every remainder is below the largest divisor in size, and no further from 0 than the dividend.
    #[tactic(auto, unfolding(crate::specs::Interval::rem_interval))]
    pub fn remainder_signed(self, other: Range) -> Option<Range>
        ensures { interval_of result ≡ rem_interval (bounds_of self) (bounds_of other) }
    {
        if !self.is_divisible(other) {
            return None;
        }
        let low = other.min.checked_abs()?;
        let high = other.max.checked_abs()?;
        Some(self.cut(low.max(high)))
    }

    // The part with less than this size, stretched to 0.
    fn cut(self, size: Signed) -> Range
        requires { is_neg (int_of size) ≡ false }
        ensures { bounds_of result ≡ cut (bounds_of self) (int_of size) }
    {
        let least = Signed::ONE.wrapping_sub(size);
        let most = size.wrapping_sub(Signed::ONE);
        Range {
            min: self.min.max(least).min(Signed::ZERO),
            max: self.max.min(most).max(Signed::ZERO),
        }
    }

    #[tactic(auto, unfolding(crate::specs::Interval::shl_interval))]
    pub fn shift_left(self, other: Range) -> Option<Range>
        ensures { interval_of result ≡ shl_interval (bounds_of self) (bounds_of other) }
    {
        if self.is_nonnegative() && other.is_nonnegative() {
            between(shifted(self.min, other.min), shifted(self.max, other.max))
        } else {
            None
        }
    }

    #[tactic(auto, unfolding(crate::specs::Interval::shr_interval))]
    pub fn shift_right(self, other: Range) -> Option<Range>
        ensures { interval_of result ≡ shr_interval (bounds_of self) (bounds_of other) }
    {
        if self.is_nonnegative() && other.is_nonnegative() {
            Some(Range {
                min: self.min.unbounded_shr(clamped_amount(other.max)),
                max: self.max.unbounded_shr(clamped_amount(other.min)),
            })
        } else {
            None
        }
    }
}
