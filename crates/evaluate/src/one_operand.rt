// The unary evaluator.
ghost use Rattle.std.specs.Prelude.{◌≡◌};
ghost use Rattle.word.specs.Value.{val, number_of};
ghost use Rattle.evaluate.specs.Evaluate.{unary_value, sign_extended, leading_in, trailing_in};
ghost use Rattle.evaluate.specs.Answer.{outcome_of, evaluate_unary};

use crate::Unary;
use crate::code::WIDEST;
use crate::pattern::{bits_above, extended, low_bits, pattern_of};
use answer::Refusal;
use word::Word;

#[tactic(auto, unfolding(word::specs::Value::val))]
fn sign_extend(value: Word, width: u16) -> Word
    ensures { val result ≡ sign_extended width (val value) }
{
    if width == 0 {
        return Word::ZERO;
    }
    extended(value, width).as_word()
}

fn leading_zeros(value: Word, width: u16) -> Word
    ensures { val result ≡ leading_in width (val value) }
{
    let zeros = low_bits(value, width).leading_zeros();
    Word::from(u64::from(zeros.saturating_sub(bits_above(width))))
}

fn trailing_zeros(value: Word, width: u16) -> Word
    ensures { val result ≡ trailing_in width (val value) }
{
    let zeros = low_bits(value, width).trailing_zeros();
    Word::from(u64::from(zeros.min(u32::from(width))))
}

// What the operator gives, with any parameter.
#[tactic(auto, unfolding(crate::specs::Evaluate::unary_value, word::specs::Value::val))]
pub fn unary_value(operation: Unary, value: Word) -> Option<Word>
    ensures { number_of result ≡ unary_value operation (val value) }
{
    match operation {
        Unary::BoolNot => Some(Word::from(value == Word::ZERO)),
        Unary::BitNot => Some(!value),
        Unary::Negate => pattern_of(value.as_signed().checked_neg()),
        Unary::Truncate(width) => Some(low_bits(value, width)),
        Unary::SignExtend(width) => Some(sign_extend(value, width)),
        Unary::LeadingZeros(width) => Some(leading_zeros(value, width)),
        Unary::TrailingZeros(width) => Some(trailing_zeros(value, width)),
    }
}

#[tactic(auto, unfolding(crate::specs::Answer::evaluate_unary))]
pub fn evaluate_unary(operation: Unary, value: Word) -> Result<Option<Word>, Refusal>
    ensures { outcome_of result ≡ evaluate_unary operation (val value) }
{
    if WIDEST < operation.width() {
        return Err(Refusal::Width);
    }
    Ok(unary_value(operation, value))
}
