// Shifts by any amount.
ghost use Rattle.std.specs.Prelude.{◌≡◌, ◌*◌, ◌/◌, ◌%◌, ◌^◌, nat_lt};
ghost use Rattle.std.specs.Int.Signed.{shr_z};
ghost use Rattle.word.specs.Value.{val, int_of, number_of};
ghost use Rattle.word.specs.Option.{only};

use crate::{Signed, Word};

impl Word {
    // The bits past the top are lost; from 128 on all of them.
    pub fn unbounded_shl(self, amount: u32) -> Word
        ensures { val result ≡ val self * 2 ^ amount % 2 ^ 128 }
    {
        let Word { lo, hi } = self;
        if amount == 0 {
            return Word { lo, hi };
        }
        if amount < 64 {
            return Word {
                lo: lo << amount,
                hi: (hi << amount) | (lo >> (64 - amount)),
            };
        }
        if amount < 128 {
            return Word {
                lo: 0,
                hi: lo << (amount - 64),
            };
        }
        Word::ZERO
    }

    // The bits past the bottom are lost; from 128 on all of them.
    pub fn unbounded_shr(self, amount: u32) -> Word
        ensures { val result ≡ val self / 2 ^ amount }
    {
        let Word { lo, hi } = self;
        if amount == 0 {
            return Word { lo, hi };
        }
        if amount < 64 {
            return Word {
                lo: (lo >> amount) | (hi << (64 - amount)),
                hi: hi >> amount,
            };
        }
        if amount < 128 {
            return Word {
                lo: hi >> (amount - 64),
                hi: 0,
            };
        }
        Word::ZERO
    }

    pub fn checked_shl(self, amount: u32) -> Option<Word>
        ensures { number_of result ≡ only (nat_lt amount 128) (val self * 2 ^ amount % 2 ^ 128) }
    {
        (amount < 128).then(|| self.unbounded_shl(amount))
    }

    pub fn checked_shr(self, amount: u32) -> Option<Word>
        ensures { number_of result ≡ only (nat_lt amount 128) (val self / 2 ^ amount) }
    {
        (amount < 128).then(|| self.unbounded_shr(amount))
    }

    // Bit `index`, 0 from 128 on.
    pub fn bit(self, index: u32) -> u64
        ensures { result ≡ val self / 2 ^ index % 2 }
    {
        self.unbounded_shr(index).lo % 2
    }
}

impl Signed {
    // Rounds down, so that copies of the sign bit come in at the top; from 128 on 0 or -1 is left.
    pub fn unbounded_shr(self, amount: u32) -> Signed
        ensures { int_of result ≡ shr_z (int_of self) (2 ^ amount) }
    {
        let pattern = self.as_word();
        if self.is_negative() {
            (!(!pattern).unbounded_shr(amount)).as_signed()
        } else {
            pattern.unbounded_shr(amount).as_signed()
        }
    }
}
