// The operators of scalar nodes, and what they give on 128-bit patterns.
#![tactic(auto)]

pub mod code;
pub mod one_operand;
pub mod pattern;
pub mod two_operands;

ghost use Rattle.std.specs.Prelude.{◌≡◌};
ghost use Rattle.evaluate.specs.Operator.{unary_width, type_width};

use answer::Refusal;
use range::ScalarType;
use word::Word;

#[derive(Clone, Copy, PartialEq, Eq)]
pub enum Unary {
    BoolNot,
    BitNot,
    Negate,
    Truncate(u16),
    SignExtend(u16),
    LeadingZeros(u16),
    TrailingZeros(u16),
}

// Each with its code, from code::BINARY on.
#[derive(Clone, Copy, PartialEq, Eq)]
pub enum Binary {
    Add = 20,
    Sub,
    Mul,
    And,
    Or,
    Xor,
    ShiftLeft,
    ShiftRight,
    ArithmeticShiftRight,
    Equal,
    NotEqual,
    LessSigned,
    LessUnsigned,
    LessEqualSigned,
    LessEqualUnsigned,
    DivideSigned,
    RemainderSigned,
    DivideUnsigned,
    RemainderUnsigned,
}

impl Unary {
    // The parameter, or 0 where the operator has none.
    pub fn width(self) -> u16
        ensures { result ≡ unary_width self }
    {
        match self {
            Unary::Truncate(width)
            | Unary::SignExtend(width)
            | Unary::LeadingZeros(width)
            | Unary::TrailingZeros(width) => width,
            _ => 0,
        }
    }
}

// The width of Bits, else 0.
pub fn type_width(ty: ScalarType) -> u16
    ensures { result ≡ type_width ty }
{
    match ty {
        ScalarType::Bits(width) => width,
        _ => 0,
    }
}
