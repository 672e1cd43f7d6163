// The ranges of nodes by their operators, and the functions of ranges.
use crate::answers::Reply;
use crate::operators::Operator;
use evaluate::{Binary, Unary};
use range::typed::{mask, type_range};
use range::{Range, ScalarType};
use word::Word;

// The rules that Integer and Bits nodes share.
fn shared_rule(operator: Operator, a: Range, b: Range) -> Option<Option<Range>> {
    match operator {
        Operator::Binary(Binary::Add) => Some(a.add(b)),
        Operator::Binary(Binary::Sub) => Some(a.sub(b)),
        Operator::Binary(Binary::Mul) => Some(a.mul(b)),
        Operator::Binary(Binary::And) => Some(a.and(b)),
        _ => None,
    }
}

// The range of an Integer node.
fn integer_rule(operator: Operator, a: Range, b: Range) -> Option<Reply> {
    let range = match operator {
        Operator::Unary(Unary::Negate) => a.negate(),
        Operator::Binary(Binary::DivideSigned) => a.divide_signed(b),
        Operator::Binary(Binary::RemainderSigned) => a.remainder_signed(b),
        Operator::Binary(Binary::DivideUnsigned) => a.divide_unsigned(b),
        Operator::Binary(Binary::RemainderUnsigned) => a.remainder_unsigned(b),
        _ => shared_rule(operator, a, b)?,
    };
    Some(Reply::Interval(range))
}

// The rule's range where it lies inside Bits(width), else the type's.
fn in_bits(rule: Option<Range>, width: u16) -> Option<Range> {
    rule.and_then(|range| range.filtered(width))
        .or(type_range(ScalarType::Bits(width)))
}

// The range of a Bits node, and of an Integer that is sign-extended from Bits.
fn bits_rule(operator: Operator, width: u16, a: Range, b: Range) -> Option<Reply> {
    let rule = match operator {
        Operator::Unary(Unary::SignExtend(_)) => {
            return Some(Reply::Interval(Range::sign_extended(width)));
        }
        Operator::Binary(Binary::ShiftLeft) => a.shift_left(b),
        Operator::Binary(Binary::ShiftRight) => a.shift_right(b),
        _ => shared_rule(operator, a, b)?,
    };
    Some(Reply::Interval(in_bits(rule, width)))
}

// The range of a node with that operator.
pub(crate) fn rule_reply(operator: Operator, ty: ScalarType, a: Range, b: Range) -> Option<Reply> {
    match ty {
        ScalarType::Bool => None,
        ScalarType::Bits(width) => bits_rule(operator, width, a, b),
        ScalarType::Integer => integer_rule(operator, a, b),
    }
}

fn mask_of(ty: ScalarType) -> Option<Reply> {
    match ty {
        ScalarType::Bits(width) => Some(Reply::Pattern(Some(mask(width)))),
        _ => None,
    }
}

// 1 for true and 0 for false.
fn truth(is_so: bool) -> Reply {
    Reply::Pattern(Some(Word::from(is_so)))
}

// The functions of types and ranges, by their numbers, which stand only here.
pub(crate) fn function_reply(function: u64, ty: ScalarType, a: Range, b: Range) -> Option<Reply> {
    match function {
        0 => mask_of(ty),
        1 => Some(Reply::Interval(type_range(ty))),
        2 => Some(Reply::Interval(Some(Range::singleton(a.min)))),
        3 => Some(truth(a.contains(b.min))),
        4 => Some(truth(a == b)),
        _ => None,
    }
}
