// Operators by their codes.
use evaluate::code::{binary_of, is_binary_code, is_unary_code, unary_of};
use evaluate::{Binary, Unary};

#[derive(Clone, Copy)]
pub(crate) enum Operator {
    Unary(Unary),
    Binary(Binary),
}

// The operator of a code, with that width where it takes one.
pub(crate) fn operator_of(code: u64, width: u16) -> Option<Operator> {
    if is_unary_code(code, 0) {
        Some(Operator::Unary(unary_of(code, width)))
    } else if is_binary_code(code) {
        Some(Operator::Binary(binary_of(code)))
    } else {
        None
    }
}
