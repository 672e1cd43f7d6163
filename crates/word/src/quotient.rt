// Quotients and remainders, by long division from the dividend's highest set bit down.
ghost use Rattle.std.specs.Prelude.{◌≡◌, ◌+◌, ◌-◌, ◌*◌, ◌/◌, ◌%◌, ◌^◌, ◌<◌, ◌≤◌, not, nat_lt};
ghost use Rattle.std.specs.Int.Count.{count_leading_zeros};
ghost use Rattle.word.specs.Value.{val, int_of, number_of, value_of, quotient, remainder};
ghost use Rattle.word.specs.Division.{divided, divided_of, division_of};
ghost use Rattle.word.specs.Option.{only, from_bool};

use crate::product::{signed_of, signs_differ};
use crate::{Division, Signed, Word};

// A difference modulo 2^128, and 1 if it borrows.
#[derive(Clone, Copy)]
struct Difference {
    value: Word,
    borrow: u64,
}

// A division under way: bits of the quotient, the remainder of what is brought down, and the steps taken.
#[derive(Clone, Copy)]
struct Part {
    quotient: u64,
    remainder: Word,
    steps: u32,
}

// 1 if a is below b.
fn below(a: u64, b: u64) -> u64
    ensures { result ≡ from_bool (nat_lt a b) }
{
    u64::from(a < b)
}

// Without a branch, since the bits of a quotient follow no pattern. By `borrowing_sub` and a bool a division takes 1.7 times as long.
fn overflowing_sub(a: Word, b: Word) -> Difference
    ensures { (val result.value + val b ≡ val a + result.borrow * 2 ^ 128) × (result.borrow < 2) }
{
    let low = below(a.lo, b.lo);
    let high = a.hi.wrapping_sub(b.hi);
    let value = Word {
        lo: a.lo.wrapping_sub(b.lo),
        hi: high.wrapping_sub(low),
    };
    Difference {
        value,
        borrow: below(a.hi, b.hi) | below(high, low),
    }
}

// 2 * w + bit, modulo 2^128.
fn double_add(w: Word, bit: u64) -> Word
    requires { bit < 2 }
    ensures { val result ≡ (2 * val w + bit) % 2 ^ 128 }
{
    let Word { lo, hi } = w;
    Word {
        lo: (lo % 0x8000_0000_0000_0000) * 2 + bit,
        hi: (hi % 0x8000_0000_0000_0000) * 2 + lo / 0x8000_0000_0000_0000,
    }
}

// One step: the dividend's next bit is brought down to the remainder, and a bit is added to the quotient.
fn division_step(part: Part, bit: u64, divisor: Word) -> Part
    requires { (bit < 2) × (val part.remainder < val divisor) × (2 * val part.remainder + bit < 2 ^ 128) × (part.quotient < 2 ^ 63) × (part.steps < 64) }
    ensures { (result.quotient * val divisor + val result.remainder ≡ 2 * (part.quotient * val divisor + val part.remainder) + bit) × (val result.remainder < val divisor) × (result.steps ≡ part.steps + 1) }
{
    let doubled = double_add(part.remainder, bit);
    let less = overflowing_sub(doubled, divisor);
    let borrow = less.borrow;
    Part {
        quotient: part.quotient * 2 + (1 - borrow),
        remainder: if borrow == 1 { doubled } else { less.value },
        steps: part.steps + 1,
    }
}

// The lowest bits of a half, from the top one down, brought down to a remainder and divided.
fn divide_half(half: u64, bits: u32, remainder: Word, divisor: Word) -> Part
    requires { (bits ≤ 64) × (half < 2 ^ bits) × (val remainder < val divisor) × (val remainder * 2 ^ bits + half < 2 ^ 128) }
    ensures { (val remainder * 2 ^ bits + half ≡ result.quotient * val divisor + val result.remainder) × (val result.remainder < val divisor) × (result.steps ≡ bits) }
{
    let mut part = Part {
        quotient: 0,
        remainder,
        steps: 0,
    };
    for left in (0..bits).rev() {
        part = division_step(part, (half >> left) % 2, divisor);
    }
    part
}

// The bits from the highest set one down.
fn bits_of(half: u64) -> u32
    ensures { result ≡ 64 - count_leading_zeros 64 half }
{
    64 - half.leading_zeros()
}

// Half by half: the high one, where it is not 0, then the low one.
fn divide_halves(dividend: Word, divisor: Word) -> Division
    requires { 0 < val divisor }
    ensures { divided_of result ≡ divided (val dividend) (val divisor) }
{
    if dividend.hi == 0 {
        let part = divide_half(dividend.lo, bits_of(dividend.lo), Word::ZERO, divisor);
        return Division {
            quotient: Word::from(part.quotient),
            remainder: part.remainder,
            steps: part.steps,
        };
    }
    let high = divide_half(dividend.hi, bits_of(dividend.hi), Word::ZERO, divisor);
    let low = divide_half(dividend.lo, 64, high.remainder, divisor);
    Division {
        quotient: Word {
            lo: low.quotient,
            hi: high.quotient,
        },
        remainder: low.remainder,
        steps: high.steps + low.steps,
    }
}

impl Word {
    #[tactic(auto, unfolding(crate::specs::Value::val))]
    pub fn is_zero(self) -> bool
        ensures { result ≡ not (nat_lt 0 (val self)) }
    {
        self == Word::ZERO
    }

    // Quotient, remainder and steps, one for each bit of the dividend from its highest set one down; none for a divisor of 0.
    pub fn divide(self, divisor: Word) -> Option<Division>
        ensures { division_of result ≡ only (nat_lt 0 (val divisor)) (divided (val self) (val divisor)) }
    {
        if divisor.is_zero() {
            return None;
        }
        Some(divide_halves(self, divisor))
    }

    pub fn checked_div(self, rhs: Word) -> Option<Word>
        ensures { number_of result ≡ only (nat_lt 0 (val rhs)) (val self / val rhs) }
    {
        self.divide(rhs).map(|d| d.quotient)
    }

    pub fn checked_rem(self, rhs: Word) -> Option<Word>
        ensures { number_of result ≡ only (nat_lt 0 (val rhs)) (val self % val rhs) }
    {
        self.divide(rhs).map(|d| d.remainder)
    }
}

impl Signed {
    pub fn checked_div(self, rhs: Signed) -> Option<Signed>
        ensures { value_of result ≡ quotient (int_of self) (int_of rhs) }
    {
        let d = self.unsigned_abs().divide(rhs.unsigned_abs())?;
        signed_of(signs_differ(self, rhs), d.quotient)
    }

    pub fn checked_rem(self, rhs: Signed) -> Option<Signed>
        ensures { value_of result ≡ remainder (int_of self) (int_of rhs) }
    {
        let d = self.unsigned_abs().divide(rhs.unsigned_abs())?;
        signed_of(signs_differ(self, rhs), d.quotient)?;
        signed_of(self.is_negative(), d.remainder)
    }
}
