// Sums and differences: low halves wrap, and the carry is found by comparing, not by `carrying_add` or a u128: docs/DECISIONS.md, 'Two halves stay'.
ghost use Rattle.std.specs.Prelude.{◌≡◌, ◌+◌, ◌-◌, ◌%◌, ◌^◌, pos, ◌+ℤ◌, ◌-ℤ◌, neg_ℤ, unsigned_abs};
ghost use Rattle.word.specs.Value.{val, int_of, wrapped, fitted, value_of};
ghost use Rattle.word.specs.Step.{unless_wrapped};

use crate::{Signed, Word};

impl Word {
    pub fn wrapping_add(self, rhs: Word) -> Word
        ensures { val result ≡ (val self + val rhs) % 2 ^ 128 }
    {
        let lo = self.lo.wrapping_add(rhs.lo);
        let hi = self.hi.wrapping_add(rhs.hi);
        if lo < self.lo {
            Word {
                lo,
                hi: hi.wrapping_add(1),
            }
        } else {
            Word { lo, hi }
        }
    }

    pub fn wrapping_sub(self, rhs: Word) -> Word
        ensures { val result ≡ (val self + (2 ^ 128 - val rhs)) % 2 ^ 128 }
    {
        let lo = self.lo.wrapping_sub(rhs.lo);
        let hi = self.hi.wrapping_sub(rhs.hi);
        if self.lo < rhs.lo {
            Word {
                lo,
                hi: hi.wrapping_sub(1),
            }
        } else {
            Word { lo, hi }
        }
    }

    pub fn wrapping_neg(self) -> Word
        ensures { val result ≡ (2 ^ 128 - val self) % 2 ^ 128 }
    {
        Word::ZERO.wrapping_sub(self)
    }
}

// The result of a sum or difference modulo 2^128, or None where it left the 128 bits: the operands (of a difference, the
// left one and the right one's complement) have one sign and the result has the other.
fn unless_wrapped(res: Signed, left: bool, right: bool) -> Option<Signed>
    ensures { value_of result ≡ unless_wrapped left right (int_of res) }
{
    if left == right && left != res.is_negative() {
        None
    } else {
        Some(res)
    }
}

impl Signed {
    pub fn wrapping_add(self, rhs: Signed) -> Signed
        ensures { int_of result ≡ wrapped (int_of self +ℤ int_of rhs) }
    {
        self.as_word().wrapping_add(rhs.as_word()).as_signed()
    }

    pub fn wrapping_sub(self, rhs: Signed) -> Signed
        ensures { int_of result ≡ wrapped (int_of self -ℤ int_of rhs) }
    {
        self.as_word().wrapping_sub(rhs.as_word()).as_signed()
    }

    pub fn checked_add(self, rhs: Signed) -> Option<Signed>
        ensures { value_of result ≡ fitted (int_of self +ℤ int_of rhs) }
    {
        unless_wrapped(
            self.wrapping_add(rhs),
            self.is_negative(),
            rhs.is_negative(),
        )
    }

    pub fn checked_sub(self, rhs: Signed) -> Option<Signed>
        ensures { value_of result ≡ fitted (int_of self -ℤ int_of rhs) }
    {
        unless_wrapped(
            self.wrapping_sub(rhs),
            self.is_negative(),
            !rhs.is_negative(),
        )
    }

    pub fn checked_neg(self) -> Option<Signed>
        ensures { value_of result ≡ fitted (neg_ℤ (int_of self)) }
    {
        Signed::ZERO.checked_sub(self)
    }

    pub fn checked_abs(self) -> Option<Signed>
        ensures { value_of result ≡ fitted (pos (unsigned_abs (int_of self))) }
    {
        if self.is_negative() {
            self.checked_neg()
        } else {
            Some(self)
        }
    }
}
