// The refusals that calls answer with.
#![tactic(auto)]

ghost use Rattle.std.specs.Prelude.{◌≡◌};
ghost use Rattle.answer.specs.Refusal.{refusal_number};

use std::error::Error;
use std::fmt;

// What a no to each question refuses, by the questions' numbers.
#[derive(Clone, Copy, PartialEq, Eq, Debug)]
pub enum Refusal {
    Graph = 1,
    Width,
    Id,
    Typing,
    Value,
    Keep,
    Room,
    Units,
    // Sixteen marks stand.
    Marks,
    // The mark named does not stand.
    Mark,
    // A list of guards with more than 32, or without one answer, 0 or 1, for each.
    Guards,
}

impl Refusal {
    pub fn number(self) -> u64
        ensures { result ≡ refusal_number self }
    {
        self as u64
    }
}

// What each says to a reader; the programs print its number.
impl fmt::Display for Refusal {
    ghost use Rattle.std.specs.Prelude.{Some};
    ghost use Rattle.answer.specs.Refusal.{refusal_text};

    ghost output = { λ refusal. Some (refusal_text refusal) };

    fn fmt<W: fmt::Write>(&self, f: &mut fmt::Formatter<W>) -> fmt::Result {
        f.write_str(match self {
            Refusal::Graph => "the region is no graph",
            Refusal::Width => "a width is above 128",
            Refusal::Id => "an id is not below the number of nodes",
            Refusal::Typing => "the operator and the types do not fit",
            Refusal::Value =>
                "a Bool constant is not 0 or 1, or a range is empty or outside its type",
            Refusal::Keep =>
                "the list does not fit the nodes, or an operand of a kept node is dropped",
            Refusal::Room => "there is no room for another node: a graph holds 512",
            Refusal::Units => "the call needs more than 1,024 steps",
            Refusal::Marks => "sixteen marks stand already",
            Refusal::Mark => "the mark does not stand",
            Refusal::Guards =>
                "the list has more than 32 guards, or not one answer, 0 or 1, for each",
        })
    }
}

impl Error for Refusal {}
