// A guard as one word, and the call matches: its number is what is expected, its width whether 64 bits suffice, and its flag an operator's code.
ghost use Rattle.std.specs.Prelude.{◌≡◌, ◌+◌, ◌*◌, ◌%◌, ◌^◌, if◌then◌else◌};
ghost use Rattle.evaluate.specs.Operator.{binary_code};

use crate::lines::Call;
use answer::Refusal;
use evaluate::code::binary_of;
use graph::NodeId;
use guard::Guard;
use word::Word;

// One more than the largest id that a guard's word has room for.
const IDS: u64 = 0x1_0000_0000;

// A guard as one word: the ids in the low half, and in the high half the operator's code, what is expected and whether 64 bits suffice.
pub(crate) fn packed(guard: Guard) -> Word
    ensures hi_value { result.hi ≡ binary_code guard.operation * 65536 + (if guard.expected then 1 else 0) * 256 + (if guard.host64 then 1 else 0) }
    ensures lo_value { result.lo ≡ guard.left.0 % 2 ^ 32 * 2 ^ 32 + guard.right.0 % 2 ^ 32 }
{
    let op = guard.operation;
    Word {
        lo: guard.left.0 % IDS * IDS + guard.right.0 % IDS,
        hi: op.code() * 65536 + u64::from(guard.expected) * 256 + u64::from(guard.host64),
    }
}

// Whether the two words match a guard. Of the guard's ids nothing is asked.
pub(crate) fn matched(call: Call) -> Result<bool, Refusal> {
    let guard = Guard {
        operation: binary_of(call.flag),
        left: NodeId(0),
        right: NodeId(0),
        expected: call.number != 0,
        host64: call.width != 0,
    };
    guard.matches(call.a, call.b)
}
