// The codes of types and operators, and the widest type: the one place that has their numbers.
ghost use Rattle.std.specs.Prelude.{◌≡◌};
ghost use Rattle.evaluate.specs.Operator.{unary_code, binary_code, type_of, unary_of, binary_of, is_unary_code, is_binary_code};

use crate::{Binary, Unary};
use range::ScalarType;

// The unary codes: from UNARY on and below UNARY_END; from PARAMETER on the operator has a width.
pub const UNARY: u64 = 10;

pub const PARAMETER: u64 = 13;

pub const UNARY_END: u64 = 17;
// The binary codes: from BINARY on and below BINARY_END.
pub const BINARY: u64 = 20;

pub const BINARY_END: u64 = 39;
// The codes of the types.
pub const BOOL: u64 = 0;

pub const BITS: u64 = 1;

pub const INTEGER: u64 = 2;
// The widest Bits, as a width and as a word.
pub const WIDEST: u16 = 128;

pub const WIDEST_WORD: u64 = WIDEST as u64;
// One past the widest.
pub const WIDTHS: u64 = WIDEST_WORD + 1;
// One past the largest offset of a slice.
pub const OFFSETS: u64 = WIDEST_WORD;

const BOOL_NOT: u64 = UNARY;

const BIT_NOT: u64 = UNARY + 1;

const NEGATE: u64 = UNARY + 2;

const TRUNCATE: u64 = PARAMETER;

const SIGN_EXTEND: u64 = PARAMETER + 1;

const LEADING_ZEROS: u64 = PARAMETER + 2;

const TRAILING_ZEROS: u64 = PARAMETER + 3;

// The binary operators in the order of their codes.
const BINARIES: [Binary; 19] = [
    Binary::Add,
    Binary::Sub,
    Binary::Mul,
    Binary::And,
    Binary::Or,
    Binary::Xor,
    Binary::ShiftLeft,
    Binary::ShiftRight,
    Binary::ArithmeticShiftRight,
    Binary::Equal,
    Binary::NotEqual,
    Binary::LessSigned,
    Binary::LessUnsigned,
    Binary::LessEqualSigned,
    Binary::LessEqualUnsigned,
    Binary::DivideSigned,
    Binary::RemainderSigned,
    Binary::DivideUnsigned,
    Binary::RemainderUnsigned,
];

impl Unary {
    pub fn code(self) -> u64
        ensures { result ≡ unary_code self }
    {
        match self {
            Unary::BoolNot => BOOL_NOT,
            Unary::BitNot => BIT_NOT,
            Unary::Negate => NEGATE,
            Unary::Truncate(_) => TRUNCATE,
            Unary::SignExtend(_) => SIGN_EXTEND,
            Unary::LeadingZeros(_) => LEADING_ZEROS,
            Unary::TrailingZeros(_) => TRAILING_ZEROS,
        }
    }
}

impl Binary {
    pub fn code(self) -> u64
        ensures { result ≡ binary_code self }
    {
        self as u64
    }
}

// The type of a code, with that width if it is Bits.
pub fn type_of(code: u64, width: u16) -> Option<ScalarType>
    ensures { result ≡ type_of code width }
{
    match code {
        BOOL => Some(ScalarType::Bool),
        BITS => Some(ScalarType::Bits(width)),
        INTEGER => Some(ScalarType::Integer),
        _ => None,
    }
}

// The unary operator of a code; BoolNot for a code that is none's. No `TryFrom`: a region of any content is read, where no code is refused.
pub fn unary_of(code: u64, width: u16) -> Unary
    ensures { result ≡ unary_of code width }
{
    match code {
        BIT_NOT => Unary::BitNot,
        NEGATE => Unary::Negate,
        TRUNCATE => Unary::Truncate(width),
        SIGN_EXTEND => Unary::SignExtend(width),
        LEADING_ZEROS => Unary::LeadingZeros(width),
        TRAILING_ZEROS => Unary::TrailingZeros(width),
        _ => Unary::BoolNot,
    }
}

// The binary operator of a code; Add for a code that is none's.
pub fn binary_of(code: u64) -> Binary
    ensures { result ≡ binary_of code }
{
    let place = code.saturating_sub(BINARY) as usize;
    BINARIES.get(place).copied().unwrap_or(Binary::Add)
}

// Is this a unary operator's code, with a parameter that it takes?
pub fn is_unary_code(code: u64, parameter: u64) -> bool
    ensures { result ≡ is_unary_code code parameter }
{
    if code < PARAMETER {
        UNARY <= code && parameter == 0
    } else {
        code < UNARY_END
    }
}

// Is this a binary operator's code?
pub fn is_binary_code(code: u64) -> bool
    ensures { result ≡ is_binary_code code }
{
    BINARY <= code && code < BINARY_END
}
