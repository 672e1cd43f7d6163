// The limits that a comparison of two ranges gives (assume.rs 104 to 150), and the part of a range between limits.
ghost use Rattle.std.specs.Prelude.{cond, ◌≡◌};
ghost use Rattle.word.specs.Value.{int_of, value_of, eq_z};
ghost use Rattle.word.specs.Option.{provided};
ghost use Rattle.range.specs.Interval.{bounds_of};
ghost use Rattle.assume.specs.Limits.{limits_of, limited_to, meet, narrows, limits, pair, pair_of, one_more, one_less, less_limits, less_equal_limits, equal_limits, besides, apart_limits, comparable, limits_by};

use crate::{Limits, Pair};
use evaluate::Binary;
use fold::compare::unsigned_too;
use fold::operator::is_unsigned_order;
use range::{Range, ScalarType};
use word::Signed;

// The range met with limits.
#[tactic(auto, using(word::proofs::Compared::max_signed, word::proofs::Compared::min_signed), unfolding(crate::specs::Limits::meet))]
pub fn meet(range: Range, limits: Limits) -> Range
    ensures { bounds_of result ≡ meet (bounds_of range) (limits_of limits) }
{
    let Range { min, max } = range;
    Range {
        min: min.max(limits.lower.unwrap_or(min)),
        max: max.min(limits.upper.unwrap_or(max)),
    }
}

// Is there something to narrow? Not if the range stays, if nothing is left of it, or on Bool.
#[tactic(auto, unfolding(crate::specs::Limits::narrows))]
pub fn narrows(ty: ScalarType, old: Range, met: Range) -> bool
    ensures { result ≡ narrows ty (bounds_of old) (bounds_of met) }
{
    met != old && met.min <= met.max && ty != ScalarType::Bool
}

#[tactic(auto, unfolding(word::specs::Value::int_of))]
fn one_more(value: Signed) -> Option<Signed>
    ensures { value_of result ≡ one_more (int_of value) }
{
    value.checked_add(Signed::ONE)
}

#[tactic(auto, unfolding(word::specs::Value::int_of))]
fn one_less(value: Signed) -> Option<Signed>
    ensures { value_of result ≡ one_less (int_of value) }
{
    value.checked_sub(Signed::ONE)
}

// The ends of a range.
pub fn limited_to(range: Range) -> Limits
    ensures { limits_of result ≡ limited_to (bounds_of range) }
{
    Limits {
        lower: Some(range.min),
        upper: Some(range.max),
    }
}

// A least value alone.
fn at_least(lower: Option<Signed>) -> Limits
    ensures { limits_of result ≡ limits (value_of lower) None }
{
    Limits { lower, upper: None }
}

// A largest value alone.
fn at_most(upper: Option<Signed>) -> Limits
    ensures { limits_of result ≡ limits None (value_of upper) }
{
    Limits { lower: None, upper }
}

impl Pair {
    // The limits of a comparison whose operands change places.
    fn exchanged(self) -> Pair
        ensures { pair_of result ≡ pair (limits_of self.right) (limits_of self.left) }
    {
        Pair {
            left: self.right,
            right: self.left,
        }
    }
}

fn less_limits(a: Range, b: Range) -> Pair
    ensures { pair_of result ≡ less_limits (bounds_of a) (bounds_of b) }
{
    Pair {
        left: at_most(one_less(b.max)),
        right: at_least(one_more(a.min)),
    }
}

fn less_equal_limits(a: Range, b: Range) -> Pair
    ensures { pair_of result ≡ less_equal_limits (bounds_of a) (bounds_of b) }
{
    Pair {
        left: at_most(Some(b.max)),
        right: at_least(Some(a.min)),
    }
}

fn equal_limits(a: Range, b: Range) -> Pair
    ensures { pair_of result ≡ equal_limits (bounds_of a) (bounds_of b) }
{
    Pair {
        left: limited_to(b),
        right: limited_to(a),
    }
}

// The limit, if two values are equal.
fn if_equal(a: Signed, b: Signed, limit: Option<Signed>) -> Option<Signed>
    ensures { value_of result ≡ provided (eq_z (int_of a) (int_of b)) (value_of limit) }
{
    if a == b { limit } else { None }
}

// A value of a is not the one value of b: an end of a that is that value goes.
fn besides(a: Range, b: Range) -> Limits
    ensures { limits_of result ≡ besides (bounds_of a) (bounds_of b) }
{
    if b.min == b.max {
        Limits {
            lower: if_equal(a.min, b.min, one_more(a.min)),
            upper: if_equal(a.max, b.max, one_less(a.max)),
        }
    } else {
        at_least(None)
    }
}

fn apart_limits(a: Range, b: Range) -> Pair
    ensures { pair_of result ≡ apart_limits (bounds_of a) (bounds_of b) }
{
    Pair {
        left: besides(a, b),
        right: besides(b, a),
    }
}

// Do ranges say something of the comparison? Of an unsigned one only where no value is negative.
pub fn comparable(op: Binary, a: Range, b: Range) -> bool
    ensures { result ≡ comparable op (bounds_of a) (bounds_of b) }
{
    !is_unsigned_order(op) || unsigned_too(a, b)
}

fn equality_limits(equal: bool, a: Range, b: Range) -> Pair
    ensures { pair_of result ≡ cond equal (equal_limits (bounds_of a) (bounds_of b)) (apart_limits (bounds_of a) (bounds_of b)) }
{
    if equal {
        equal_limits(a, b)
    } else {
        apart_limits(a, b)
    }
}

// The limits of two operands whose comparison is as expected. Inlined, as `sides` is (narrowing.rt).
#[tactic(auto, unfolding(crate::specs::Limits::limits_by))]
#[inline(always)]
pub fn limits_by(op: Binary, expected: bool, a: Range, b: Range) -> Pair
    ensures { pair_of result ≡ limits_by op expected (bounds_of a) (bounds_of b) }
{
    match op {
        Binary::LessSigned | Binary::LessUnsigned if expected => less_limits(a, b),
        Binary::LessSigned | Binary::LessUnsigned => less_equal_limits(b, a).exchanged(),
        Binary::Equal => equality_limits(expected, a, b),
        Binary::NotEqual => equality_limits(!expected, a, b),
        _ if expected => less_equal_limits(a, b),
        _ => less_limits(b, a).exchanged(),
    }
}
