// Question 4: does the typing table hold?
ghost use Rattle.std.specs.Prelude.{◌≡◌};
ghost use Rattle.request.specs.Typing.{is_number, is_bits, is_extension, unary_typed, arithmetic, shift, binary_typed, concat_typed};

use evaluate::{Binary, Unary};
use fold::operator;
use fold::operator::is_bitwise;
use range::ScalarType;

fn is_number(ty: ScalarType) -> bool
    ensures { result ≡ is_number ty }
{
    matches!(ty, ScalarType::Bits(_) | ScalarType::Integer)
}

fn is_bits(ty: ScalarType) -> bool
    ensures { result ≡ is_bits ty }
{
    matches!(ty, ScalarType::Bits(_))
}

// Integer, or Bits of at least that width. Not fold's `is_wide`, which says the same: question 4 has a definition of its own, and a lemma that the two agree would be as long as this.
fn is_extension(ty: ScalarType, width: u16) -> bool
    ensures { result ≡ is_extension ty width }
{
    match ty {
        ScalarType::Bool => false,
        ScalarType::Bits(target) => width <= target,
        ScalarType::Integer => true,
    }
}

pub(crate) fn is_unary_typed(op: Unary, from: ScalarType, to: ScalarType) -> bool
    ensures { result ≡ unary_typed op from to }
{
    match op {
        Unary::BoolNot => from == ScalarType::Bool && to == ScalarType::Bool,
        Unary::BitNot => is_bits(from) && to == from,
        Unary::Negate => from == ScalarType::Integer && to == ScalarType::Integer,
        Unary::Truncate(width) => to == ScalarType::Bits(width),
        Unary::SignExtend(width) => from == ScalarType::Bits(width) && is_extension(to, width),
        Unary::LeadingZeros(width) => from == ScalarType::Bits(width) && is_number(to),
        Unary::TrailingZeros(width) => from == ScalarType::Bits(width) && is_number(to),
    }
}

fn is_arithmetic(a: ScalarType, b: ScalarType, to: ScalarType) -> bool
    ensures { result ≡ arithmetic a b to }
{
    is_number(to) && a == to && b == to
}

fn is_shift(a: ScalarType, b: ScalarType, to: ScalarType) -> bool
    ensures { result ≡ shift a b to }
{
    is_number(to) && a == to && is_number(b)
}

pub(crate) fn is_binary_typed(op: Binary, a: ScalarType, b: ScalarType, to: ScalarType) -> bool
    ensures { result ≡ binary_typed op a b to }
{
    if is_bitwise(op) {
        return a == to && b == to;
    }
    if operator::is_shift(op) {
        return is_shift(a, b, to);
    }
    if operator::is_comparison(op) {
        return to == ScalarType::Bool && a == b;
    }
    is_arithmetic(a, b, to)
}

pub(crate) fn is_concat_typed(high: ScalarType, low: ScalarType, low_width: u16, width: u16) -> bool
    ensures { result ≡ concat_typed high low low_width width }
{
    low_width <= width
        && high == ScalarType::Bits(width - low_width)
        && low == ScalarType::Bits(low_width)
}
