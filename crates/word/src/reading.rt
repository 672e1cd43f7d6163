// One pattern of 128 bits, read unsigned and signed, and words of numbers.
ghost use Rattle.std.specs.Prelude.{◌≡◌, unsigned_abs};
ghost use Rattle.word.specs.Value.{val, int_of, residue, signed, is_neg};
ghost use Rattle.word.specs.Option.{from_bool};

use crate::{Signed, Word};

// From u64 alone: with From<u16> and From<u32> beside it each literal, as in `Word::from(128)`, would have to name its type.
impl From<u64> for Word {
    ghost from_gives = { λ n w. val w ≡ n };

    #[tactic(auto, using(crate::proofs::Products::val_low))]
    fn from(n: u64) -> Word {
        Word { lo: n, hi: 0 }
    }
}

impl From<bool> for Word {
    ghost from_gives = { λ t w. val w ≡ from_bool t };

    fn from(t: bool) -> Word {
        Word::from(u64::from(t))
    }
}

impl Word {
    pub const ZERO: Word = Word { lo: 0, hi: 0 };

    pub const ONE: Word = Word { lo: 1, hi: 0 };

    // Rust's `as i128`.
    pub fn as_signed(self) -> Signed
        ensures { int_of result ≡ signed 128 (val self) }
    {
        Signed {
            lo: self.lo,
            hi: self.hi.cast_signed(),
        }
    }
}

impl Signed {
    pub const ZERO: Signed = Signed { lo: 0, hi: 0 };

    pub const ONE: Signed = Signed { lo: 1, hi: 0 };

    // Rust's `as u128`.
    pub fn as_word(self) -> Word
        ensures { val result ≡ residue 128 (int_of self) }
    {
        Word {
            lo: self.lo,
            hi: self.hi.cast_unsigned(),
        }
    }

    pub fn is_negative(self) -> bool
        ensures { result ≡ is_neg (int_of self) }
    {
        self.hi < 0
    }

    pub fn unsigned_abs(self) -> Word
        ensures { val result ≡ unsigned_abs (int_of self) }
    {
        if self.is_negative() {
            self.as_word().wrapping_neg()
        } else {
            self.as_word()
        }
    }
}
