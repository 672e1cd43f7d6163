// Product and quotient ranges: the results at the four corners, together.
ghost use Rattle.std.specs.Prelude.{◌≡◌, not, ◌&&◌, pos};
ghost use Rattle.std.specs.Int.Signed.{le_z};
ghost use Rattle.word.specs.Value.{value_of, eq_z, is_neg};
ghost use Rattle.range.specs.Interval.{bounds_of, interval_of, mul_interval, quot_interval, divisible, corners_of};
ghost use Rattle.range.specs.Step.{span_of};

use crate::Range;
use crate::arithmetic::{between, up_to};
use word::Signed;

// The results at the corners of two ranges.
#[derive(Clone, Copy)]
pub struct Corners {
    pub values: [Signed; 4],
}

impl Corners {
    // From the least to the greatest of the four.
    fn span(self) -> Range
        ensures { bounds_of result ≡ span_of self.values }
    {
        // `iter().min()` would give an Option, to be unwrapped.
        let [a, b, c, d] = self.values;
        Range {
            min: a.min(b).min(c.min(d)),
            max: a.max(b).max(c.max(d)),
        }
    }
}

// From the least to the greatest of four results, if all are there.
fn span_of(
    first: Option<Signed>,
    second: Option<Signed>,
    third: Option<Signed>,
    fourth: Option<Signed>,
) -> Option<Range>
    ensures { interval_of result ≡ corners_of (value_of first) (value_of second) (value_of third) (value_of fourth) }
{
    let corners = Corners {
        values: [first?, second?, third?, fourth?],
    };
    Some(corners.span())
}

impl Range {
    // From 0 up, as the ranges of Bits are: three of the corners of two such ranges are 0.
    #[tactic(auto, unfolding(word::specs::Value::int_of))]
    fn is_from_zero(self) -> bool
        ensures { result ≡ eq_z (bounds_of self).low (pos 0) && not (is_neg (bounds_of self).high) }
    {
        self.min == Signed::ZERO && !self.max.is_negative()
    }

    pub fn mul(self, other: Range) -> Option<Range>
        ensures { interval_of result ≡ mul_interval (bounds_of self) (bounds_of other) }
    {
        let Range { min: a, max: b } = self;
        let Range { min: c, max: d } = other;
        if self.is_from_zero() && other.is_from_zero() {
            return up_to(b.checked_mul(d));
        }
        span_of(
            a.checked_mul(c),
            a.checked_mul(d),
            b.checked_mul(c),
            b.checked_mul(d),
        )
    }

    // Is no divisor 0, and no quotient past the integers of 128 bits?
    #[tactic(auto, unfolding(crate::specs::Interval::divisible, word::specs::Value::int_of))]
    pub fn is_divisible(self, divisor: Range) -> bool
        ensures { result ≡ divisible (bounds_of self) (bounds_of divisor) }
    {
        let least = Signed {
            lo: 0,
            hi: i64::MIN,
        };
        let minus_one = Signed {
            lo: u64::MAX,
            hi: -1,
        };
        (Signed::ZERO < divisor.min || divisor.max < Signed::ZERO)
            && !(self.contains(least) && divisor.contains(minus_one))
    }

    // Not below 0, and in order.
    fn is_rising(self) -> bool
        ensures { result ≡ le_z (pos 0) (bounds_of self).low && le_z (bounds_of self).low (bounds_of self).high }
    {
        self.is_nonnegative() && self.min <= self.max
    }

    // Two corners decide between rising ranges, and there are only two where one divisor is possible.
    pub fn divide_signed(self, other: Range) -> Option<Range>
        ensures { interval_of result ≡ quot_interval (bounds_of self) (bounds_of other) }
    {
        if !self.is_divisible(other) {
            return None;
        }
        let Range { min: a, max: b } = self;
        let Range { min: c, max: d } = other;
        if self.is_rising() && other.is_rising() {
            return between(a.checked_div(d), b.checked_div(c));
        }
        let first = a.checked_div(c);
        let second = b.checked_div(c);
        if c == d {
            return span_of(first, first, second, second);
        }
        span_of(first, a.checked_div(d), second, b.checked_div(d))
    }
}
