// The range of a new node by its type, its operator and its operands' ranges.
ghost use Rattle.word.specs.Option.{both_given};
ghost use Rattle.std.specs.Prelude.{◌≡◌};
ghost use Rattle.range.specs.Interval.{bounds_of, interval_of};
ghost use Rattle.fold.specs.Range.{derived_of, extended_range, unary_range, shared_rule, integer_rule, bits_rule, held_to, binary_range};

use evaluate::{Binary, Unary};
use range::typed::type_range;
use range::{Range, ScalarType};

// The range of a new node. The outer None: the builder makes no node and answers none. The inner one: a node without a range.
pub type Derived = Option<Option<Range>>;

fn extended_range(ty: ScalarType, width: u16) -> Option<Range>
    ensures { interval_of result ≡ extended_range ty width }
{
    match ty {
        ScalarType::Integer => Range::sign_extended(width),
        _ => type_range(ty),
    }
}

#[tactic(auto, unfolding(crate::specs::Range::unary_range))]
pub fn unary_range(ty: ScalarType, op: Unary, range: Option<Range>) -> Derived
    ensures { derived_of result ≡ unary_range ty op (interval_of range) }
{
    match op {
        Unary::Negate => range?.negate().map(Some),
        Unary::SignExtend(width) => Some(extended_range(ty, width)),
        _ => Some(type_range(ty)),
    }
}

// The rules that Integer and Bits have both.
fn shared_rule(op: Binary, a: Range, b: Range) -> Option<Range>
    ensures { interval_of result ≡ shared_rule op (bounds_of a) (bounds_of b) }
{
    match op {
        Binary::Add => a.add(b),
        Binary::Sub => a.sub(b),
        Binary::Mul => a.mul(b),
        Binary::And => a.and(b),
        _ => None,
    }
}

#[tactic(auto, unfolding(crate::specs::Range::integer_rule))]
fn integer_rule(op: Binary, a: Range, b: Range) -> Option<Range>
    ensures { interval_of result ≡ integer_rule op (bounds_of a) (bounds_of b) }
{
    match op {
        Binary::DivideSigned => a.divide_signed(b),
        Binary::RemainderSigned => a.remainder_signed(b),
        Binary::DivideUnsigned => a.divide_unsigned(b),
        Binary::RemainderUnsigned => a.remainder_unsigned(b),
        _ => shared_rule(op, a, b),
    }
}

#[tactic(auto, unfolding(crate::specs::Range::bits_rule))]
fn bits_rule(op: Binary, a: Range, b: Range) -> Option<Range>
    ensures { interval_of result ≡ bits_rule op (bounds_of a) (bounds_of b) }
{
    match op {
        Binary::ShiftLeft => a.shift_left(b),
        Binary::ShiftRight => a.shift_right(b),
        _ => shared_rule(op, a, b),
    }
}

// The rule on Integer where both operands have a range.
fn integer_range(op: Binary, left: Option<Range>, right: Option<Range>) -> Option<Range>
    ensures { interval_of result ≡ both_given (interval_of left) (interval_of right) (integer_rule op) }
{
    integer_rule(op, left?, right?)
}

// The rule on Bits where both operands have a range, held to the type.
fn refined(width: u16, op: Binary, left: Option<Range>, right: Option<Range>) -> Option<Range>
    ensures { interval_of result ≡ held_to width (both_given (interval_of left) (interval_of right) (bits_rule op)) }
{
    bits_rule(op, left?, right?)?.filtered(width)
}

#[tactic(auto, unfolding(crate::specs::Range::binary_range))]
pub fn binary_range(
    ty: ScalarType,
    op: Binary,
    left: Option<Range>,
    right: Option<Range>,
) -> Derived
    ensures { derived_of result ≡ binary_range ty op (interval_of left) (interval_of right) }
{
    match ty {
        ScalarType::Bool => Some(type_range(ty)),
        ScalarType::Bits(width) => Some(refined(width, op, left, right).or_else(|| type_range(ty))),
        ScalarType::Integer => integer_range(op, left, right).map(Some),
    }
}
