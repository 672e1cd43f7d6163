// Products.
ghost use Rattle.std.specs.Prelude.{◌≡◌, ◌+◌, ◌*◌, ◌%◌, ◌^◌, ◌*ℤ◌, nat_lt};
ghost use Rattle.word.specs.Value.{val, int_of, is_neg, number_of, wrapped, fitted, value_of};
ghost use Rattle.word.specs.Step.{with_sign, differ};
ghost use Rattle.word.specs.Option.{only};

use crate::{Signed, Word};

// The whole product of two halves.
#[tactic(auto, unfolding(crate::specs::Value::val))]
fn product_of_halves(u: u64, v: u64) -> Word
    ensures { val result ≡ u * v }
{
    let (lo, hi) = u.carrying_mul(v, 0);
    Word { lo, hi }
}

// high * 2^64 + low, where it fits.
fn raised(high: Word, low: Word) -> Option<Word>
    ensures { number_of result ≡ only (nat_lt (val high * 2 ^ 64 + val low) (2 ^ 128)) (val high * 2 ^ 64 + val low) }
{
    if high.hi != 0 {
        return None;
    }
    let hi = low.hi.checked_add(high.lo)?;
    Some(Word { lo: low.lo, hi })
}

// Is one of the two below 0, and the other not?
pub(crate) fn signs_differ(left: Signed, right: Signed) -> bool
    ensures { result ≡ differ (is_neg (int_of left)) (is_neg (int_of right)) }
{
    left.is_negative() != right.is_negative()
}

// The integer with this sign and magnitude, where it fits.
pub(crate) fn signed_of(negative: bool, magnitude: Word) -> Option<Signed>
    ensures { value_of result ≡ fitted (with_sign negative (val magnitude)) }
{
    let limit = Word {
        lo: 0,
        hi: 0x8000_0000_0000_0000,
    };
    if negative {
        if limit < magnitude {
            None
        } else {
            Some(magnitude.wrapping_neg().as_signed())
        }
    } else if magnitude < limit {
        Some(magnitude.as_signed())
    } else {
        None
    }
}

impl Word {
    pub fn wrapping_mul(self, rhs: Word) -> Word
        ensures { val result ≡ val self * val rhs % 2 ^ 128 }
    {
        let low = product_of_halves(self.lo, rhs.lo);
        let left = product_of_halves(self.lo, rhs.hi);
        let right = product_of_halves(self.hi, rhs.lo);
        let cross = left.lo.wrapping_add(right.lo);
        Word {
            lo: low.lo,
            hi: low.hi.wrapping_add(cross),
        }
    }

    pub fn checked_mul(self, rhs: Word) -> Option<Word>
        ensures { number_of result ≡ only (nat_lt (val self * val rhs) (2 ^ 128)) (val self * val rhs) }
    {
        // Three of the four corners of two ranges from 0 on are products by 0.
        if self.is_zero() {
            return Some(self);
        }
        if rhs.is_zero() {
            return Some(rhs);
        }
        let low = product_of_halves(self.lo, rhs.lo);
        if self.hi == 0 {
            let high = product_of_halves(self.lo, rhs.hi);
            return raised(high, low);
        }
        if rhs.hi == 0 {
            let high = product_of_halves(self.hi, rhs.lo);
            return raised(high, low);
        }
        None
    }
}

impl Signed {
    pub fn wrapping_mul(self, rhs: Signed) -> Signed
        ensures { int_of result ≡ wrapped (int_of self *ℤ int_of rhs) }
    {
        self.as_word().wrapping_mul(rhs.as_word()).as_signed()
    }

    pub fn checked_mul(self, rhs: Signed) -> Option<Signed>
        ensures { value_of result ≡ fitted (int_of self *ℤ int_of rhs) }
    {
        let magnitude = self.unsigned_abs().checked_mul(rhs.unsigned_abs())?;
        signed_of(signs_differ(self, rhs), magnitude)
    }
}
