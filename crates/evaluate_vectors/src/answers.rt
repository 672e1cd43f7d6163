// The answer to a vector: an operator's code evaluates it; past those the range of its node is asked, and then a function of ranges.
use crate::operators::{Operator, operator_of};
use crate::rules::{function_reply, rule_reply};
use answer::Refusal;
use evaluate::one_operand::evaluate_unary;
use evaluate::two_operands::evaluate_binary;
use range::{Range, ScalarType};
use word::Word;

// From here on a vector asks for the range of an operator's node, its code above this.
const RULES: u64 = 64;
// From here on for a function of ranges.
const FUNCTIONS: u64 = 128;

// What a vector's answer is that is not refused: a pattern of 128 bits or Rust's None, or a range or none.
#[derive(Clone, Copy)]
pub(crate) enum Reply {
    Pattern(Option<Word>),
    Interval(Option<Range>),
}

// The first two operands are an evaluator's, and the ends of the first range; the others are the ends of the second.
#[derive(Clone, Copy)]
pub(crate) struct Vector {
    pub code: u64,
    pub ty: ScalarType,
    pub width: u16,
    pub a: Word,
    pub b: Word,
    pub c: Word,
    pub d: Word,
}

fn evaluated(
    operator: Operator,
    ty: ScalarType,
    a: Word,
    b: Word,
) -> Result<Option<Word>, Refusal> {
    match operator {
        Operator::Unary(operation) => evaluate_unary(operation, a),
        Operator::Binary(operation) => evaluate_binary(operation, ty, a, b),
    }
}

// A code that no question has is malformed.
pub(crate) fn answer_of(vector: Vector) -> Option<Result<Reply, Refusal>> {
    let Vector {
        code,
        ty,
        width,
        a,
        b,
        c,
        d,
    } = vector;
    let first = Range::of_patterns(a, b);
    let second = Range::of_patterns(c, d);
    if code < RULES {
        Some(evaluated(operator_of(code, width)?, ty, a, b).map(Reply::Pattern))
    } else if code < FUNCTIONS {
        rule_reply(operator_of(code - RULES, width)?, ty, first, second).map(Ok)
    } else {
        function_reply(code - FUNCTIONS, ty, first, second).map(Ok)
    }
}
