// Do two values match a guard (linear.rs 52 to 71)?
ghost use Rattle.std.specs.Prelude.{◌≡◌};
ghost use Rattle.word.specs.Value.{val};
ghost use Rattle.guard.specs.Guard.{one_guard_of, host_compared, wide_compared, compared, match_of, matches_call};

use crate::Guard;
use answer::Refusal;
use evaluate::Binary;
use evaluate::two_operands::binary_value;
use fold::operator::is_comparison;
use range::ScalarType;
use word::Word;

// Two 64-bit words compared, by an operator that is not signed.
fn host_compared(op: Binary, left: u64, right: u64) -> Option<bool>
    ensures { result ≡ host_compared op left right }
{
    match op {
        Binary::Equal => Some(left == right),
        Binary::NotEqual => Some(left != right),
        Binary::LessUnsigned => Some(left < right),
        Binary::LessEqualUnsigned => Some(left <= right),
        _ => None,
    }
}

// Two patterns compared, by any comparison.
fn wide_compared(op: Binary, left: Word, right: Word) -> Option<bool>
    ensures { result ≡ wide_compared op (val left) (val right) }
{
    if !is_comparison(op) {
        return None;
    }
    binary_value(op, ScalarType::Bool, left, right).map(|value| !value.is_zero())
}

impl Guard {
    // What the comparison says of two values; none for an operator that it does not take.
    fn compared(self, left: Word, right: Word) -> Option<bool>
        ensures { result ≡ compared (one_guard_of self) (val left) (val right) }
    {
        let op = self.operation;
        if self.host64 {
            host_compared(op, left.lo, right.lo)
        } else {
            wide_compared(op, left, right)
        }
    }

    // An operator that is no comparison, or with `host64` a signed one, is refused 4.
    #[tactic(auto, unfolding(crate::specs::Guard::matches_call, crate::specs::Guard::matched))]
    pub fn matches(self, left: Word, right: Word) -> Result<bool, Refusal>
        ensures { match_of result ≡ matches_call (one_guard_of self) (val left) (val right) }
    {
        self.compared(left, right)
            .map(|found| self.expected == found)
            .ok_or(Refusal::Typing)
    }
}
