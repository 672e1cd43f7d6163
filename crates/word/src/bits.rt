// Bit operations, and counts of bits.
ghost use Rattle.std.specs.Prelude.{◌≡◌, ◌-◌, ◌^◌, negsuc, ◌-ℤ◌, bit_and, bit_or, bit_xor};
ghost use Rattle.std.specs.Int.Count.{count_leading_zeros, count_trailing_zeros};
ghost use Rattle.word.specs.Value.{val, int_of, residue, signed, is_power_of_two};

use crate::{Signed, Word};
use std::ops::{BitAnd, BitOr, BitXor, Not};

impl BitAnd for Word {
    type Output = Word;

    ghost bitand_gives = { λ a b r. val r ≡ bit_and (val a) (val b) };

    fn bitand(self, rhs: Word) -> Word {
        Word {
            lo: self.lo & rhs.lo,
            hi: self.hi & rhs.hi,
        }
    }
}

impl BitOr for Word {
    type Output = Word;

    ghost bitor_gives = { λ a b r. val r ≡ bit_or (val a) (val b) };

    fn bitor(self, rhs: Word) -> Word {
        Word {
            lo: self.lo | rhs.lo,
            hi: self.hi | rhs.hi,
        }
    }
}

impl BitXor for Word {
    type Output = Word;

    ghost bitxor_gives = { λ a b r. val r ≡ bit_xor (val a) (val b) };

    fn bitxor(self, rhs: Word) -> Word {
        Word {
            lo: self.lo ^ rhs.lo,
            hi: self.hi ^ rhs.hi,
        }
    }
}

impl Not for Word {
    type Output = Word;

    ghost not_gives = { λ a r. val r ≡ 2 ^ 128 - 1 - val a };

    fn not(self) -> Word {
        Word {
            lo: !self.lo,
            hi: !self.hi,
        }
    }
}

impl Word {
    pub fn leading_zeros(self) -> u32
        ensures { result ≡ count_leading_zeros 128 (val self) }
    {
        if self.hi == 0 {
            64 + self.lo.leading_zeros()
        } else {
            self.hi.leading_zeros()
        }
    }

    pub fn trailing_zeros(self) -> u32
        ensures { result ≡ count_trailing_zeros 128 (val self) }
    {
        if self.lo == 0 {
            64 + self.hi.trailing_zeros()
        } else {
            self.lo.trailing_zeros()
        }
    }

    pub fn is_power_of_two(self) -> bool
        ensures { result ≡ is_power_of_two (val self) }
    {
        self.hi.count_ones() + self.lo.count_ones() == 1
    }
}

// Of signed words, on their patterns. A helper that takes the operator would be no shorter than each of these lines.
impl BitAnd for Signed {
    type Output = Signed;

    ghost bitand_gives = { λ a b r. int_of r ≡ signed 128 (bit_and (residue 128 (int_of a)) (residue 128 (int_of b))) };

    fn bitand(self, rhs: Signed) -> Signed {
        (self.as_word() & rhs.as_word()).as_signed()
    }
}

impl BitOr for Signed {
    type Output = Signed;

    ghost bitor_gives = { λ a b r. int_of r ≡ signed 128 (bit_or (residue 128 (int_of a)) (residue 128 (int_of b))) };

    fn bitor(self, rhs: Signed) -> Signed {
        (self.as_word() | rhs.as_word()).as_signed()
    }
}

impl BitXor for Signed {
    type Output = Signed;

    ghost bitxor_gives = { λ a b r. int_of r ≡ signed 128 (bit_xor (residue 128 (int_of a)) (residue 128 (int_of b))) };

    fn bitxor(self, rhs: Signed) -> Signed {
        (self.as_word() ^ rhs.as_word()).as_signed()
    }
}

impl Not for Signed {
    type Output = Signed;

    ghost not_gives = { λ a r. int_of r ≡ negsuc 0 -ℤ int_of a };

    fn not(self) -> Signed {
        (!self.as_word()).as_signed()
    }
}
