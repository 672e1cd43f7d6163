// The binary evaluator.
ghost use Rattle.std.specs.Prelude.{◌≡◌};
ghost use Rattle.word.specs.Value.{val, number_of};
ghost use Rattle.evaluate.specs.Evaluate.{binary_value, unreduced, is_integer, shifted_left, shifted_right, shift_width, arithmetic_shift};
ghost use Rattle.evaluate.specs.Answer.{outcome_of, evaluate_binary};

use crate::code::WIDEST;
use crate::pattern::{extended, pattern_of, reduced, to_u32};
use crate::{Binary, type_width};
use answer::Refusal;
use range::ScalarType;
use word::Word;

// Is an operation on values of this type the signed one, which may have no answer?
fn is_integer(ty: ScalarType) -> bool
    ensures { result ≡ is_integer ty }
{
    matches!(ty, ScalarType::Integer)
}

fn shift_left(a: Word, b: Word) -> Word
    ensures { val result ≡ shifted_left (val a) (val b) }
{
    a.unbounded_shl(to_u32(b))
}

fn shift_right(a: Word, b: Word) -> Word
    ensures { val result ≡ shifted_right (val a) (val b) }
{
    a.unbounded_shr(to_u32(b))
}

// A field of that width shifted, with copies of its top bit coming in.
fn arithmetic_shift(width: u16, a: Word, b: Word) -> Word
    ensures { val result ≡ arithmetic_shift width (val a) (val b) }
{
    if width == 0 {
        return Word::ZERO;
    }
    let most = Word::from(u64::from(width - 1));
    let count = to_u32(b.min(most));
    extended(a, width).unbounded_shr(count).as_word()
}

// The width at which an arithmetic shift reads its left operand.
fn shift_width(ty: ScalarType) -> u16
    ensures { result ≡ shift_width ty }
{
    match ty {
        ScalarType::Bits(width) => width,
        _ => 128,
    }
}

// What the operator gives before it is taken as a value of its type.
#[tactic(auto, using(crate::proofs::Answers::by_type_lem))]
fn unreduced(operation: Binary, ty: ScalarType, a: Word, b: Word) -> Option<Word>
    ensures { number_of result ≡ unreduced operation ty (val a) (val b) }
{
    match operation {
        Binary::Add if is_integer(ty) => pattern_of(a.as_signed().checked_add(b.as_signed())),
        Binary::Add => Some(a.wrapping_add(b)),
        Binary::Sub if is_integer(ty) => pattern_of(a.as_signed().checked_sub(b.as_signed())),
        Binary::Sub => Some(a.wrapping_sub(b)),
        Binary::Mul if is_integer(ty) => pattern_of(a.as_signed().checked_mul(b.as_signed())),
        Binary::Mul => Some(a.wrapping_mul(b)),
        Binary::And => Some(a & b),
        Binary::Or => Some(a | b),
        Binary::Xor => Some(a ^ b),
        Binary::ShiftLeft => Some(shift_left(a, b)),
        Binary::ShiftRight => Some(shift_right(a, b)),
        Binary::ArithmeticShiftRight => Some(arithmetic_shift(shift_width(ty), a, b)),
        Binary::Equal => Some(Word::from(a == b)),
        Binary::NotEqual => Some(Word::from(a != b)),
        Binary::LessSigned => Some(Word::from(a.as_signed() < b.as_signed())),
        Binary::LessUnsigned => Some(Word::from(a < b)),
        Binary::LessEqualSigned => Some(Word::from(a.as_signed() <= b.as_signed())),
        Binary::LessEqualUnsigned => Some(Word::from(a <= b)),
        Binary::DivideSigned => pattern_of(a.as_signed().checked_div(b.as_signed())),
        Binary::RemainderSigned => pattern_of(a.as_signed().checked_rem(b.as_signed())),
        Binary::DivideUnsigned => a.checked_div(b),
        Binary::RemainderUnsigned => a.checked_rem(b),
    }
}

// What the operator gives in a node of that type, at any width.
#[tactic(auto, unfolding(crate::specs::Evaluate::binary_value))]
pub fn binary_value(operation: Binary, ty: ScalarType, a: Word, b: Word) -> Option<Word>
    ensures { number_of result ≡ binary_value operation ty (val a) (val b) }
{
    unreduced(operation, ty, a, b).map(|value| reduced(ty, value))
}

#[tactic(auto, unfolding(crate::specs::Answer::evaluate_binary))]
pub fn evaluate_binary(
    operation: Binary,
    ty: ScalarType,
    a: Word,
    b: Word,
) -> Result<Option<Word>, Refusal>
    ensures { outcome_of result ≡ evaluate_binary operation ty (val a) (val b) }
{
    if WIDEST < type_width(ty) {
        return Err(Refusal::Width);
    }
    Ok(binary_value(operation, ty, a, b))
}
