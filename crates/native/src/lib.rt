// The calls: every question in order, then the work. A refusal leaves every lent word as it was.
#![tactic(auto)]

pub mod by_name;
mod direct;
pub mod perform;
pub mod reading;
pub mod retain_nodes;

ghost use Rattle.std.specs.Prelude.{◌≡◌, ℕ};
ghost use Rattle.word.specs.Option.{from_bool};
ghost use Rattle.native.specs.Call.{answer_as, numbered, refused_as};

use answer::Refusal;
use graph::NodeId;

// The number of Done.
const DONE: u64 = 0x8000_0000_0000_0000;

// A node, the Rust's None, or a guard's Done. A call answers one of these, or a refusal.
#[derive(Clone, Copy)]
pub enum Answer {
    Id(NodeId),
    None,
    Done,
}

// What stands for an answer as one number.
pub trait Numbered {
    ghost as_number: { Self → ℕ };

    fn number(self) -> u64
        ensures { result ≡ as_number self };
}

// A refusal as an answer's number: they count down from None's.
pub fn refused_as(refusal: Refusal) -> u64
    ensures { result ≡ refused_as refusal }
{
    u64::MAX - refusal.number()
}

// An id is itself, Done 2^63, None the largest.
impl Numbered for Answer {
    ghost as_number = { answer_as };

    fn number(self) -> u64 {
        match self {
            Answer::Id(id) => id.0,
            Answer::None => u64::MAX,
            Answer::Done => DONE,
        }
    }
}

// The nodes that a retain left.
impl Numbered for u64 {
    ghost as_number = { λ n. n };

    fn number(self) -> u64 {
        self
    }
}

// 1 for yes and 0 for no.
impl Numbered for bool {
    ghost as_number = { from_bool };

    fn number(self) -> u64 {
        u64::from(self)
    }
}

// An answer, or the refusal that stands in its place.
impl<T: Numbered> Numbered for Result<T, Refusal> {
    ghost as_number = { numbered T.as_number };

    fn number(self) -> u64 {
        match self {
            Ok(answer) => answer.number(),
            Err(refusal) => refused_as(refusal),
        }
    }
}
