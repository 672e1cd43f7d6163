// The calls that read: literal, resolve and guard. Each `.._in_graph` is for a caller that knows the region to be a graph: question 1 is not asked. It
// requires nothing: whatever the words are, it reads within the region, and answers what its definition says of them.
ghost use Rattle.std.specs.Prelude.{◌≡◌};
ghost use Rattle.evaluate.specs.Answer.{outcome_of};
ghost use Rattle.native.specs.Call.{answer_of, literal_call, literal_in_graph, resolve_call, resolve_in_graph};
ghost use Rattle.native.specs.Guard.{reading_of, guard_in_graph, guard_call};

use crate::Answer;
use answer::Refusal;
use graph::layout::{Region, count};
use graph::read::type_at;
use graph::well_formed::as_graph;
use graph::{NodeId, read};
use guard::{Guard, guarded};
use range::ScalarType;
use word::Word;

// The value of a constant, or None.
#[tactic(auto, unfolding(crate::specs::Call::literal_in_graph), using(crate::proofs::Parts::value_answered))]
pub fn literal_in_graph(g: &Region, id: NodeId) -> Result<Option<Word>, Refusal>
    ensures { outcome_of result ≡ literal_in_graph g.now id.0 }
{
    if id.0 < count(g) {
        Ok(read::literal(g, id))
    } else {
        Err(Refusal::Id)
    }
}

#[tactic(auto, unfolding(crate::specs::Call::literal_call))]
pub fn literal(g: &[u64], id: NodeId) -> Result<Option<Word>, Refusal>
    ensures { outcome_of result ≡ literal_call g.now id.0 }
{
    let region = as_graph(g).ok_or(Refusal::Graph)?;
    literal_in_graph(region, id)
}

// The node that stands for this one now.
#[tactic(auto, unfolding(crate::specs::Call::resolve_in_graph))]
pub fn resolve_in_graph(g: &Region, id: NodeId) -> Result<Answer, Refusal>
    ensures { answer_of result ≡ resolve_in_graph g.now id.0 }
{
    if id.0 < count(g) {
        Ok(Answer::Id(read::resolve(g, id)))
    } else {
        Err(Refusal::Id)
    }
}

#[tactic(auto, unfolding(crate::specs::Call::resolve_call))]
pub fn resolve(g: &[u64], id: NodeId) -> Result<Answer, Refusal>
    ensures { answer_of result ≡ resolve_call g.now id.0 }
{
    let region = as_graph(g).ok_or(Refusal::Graph)?;
    resolve_in_graph(region, id)
}

// The guard of a condition.
#[tactic(auto, unfolding(crate::specs::Guard::guard_in_graph), using(crate::proofs::Parts::guard_answered))]
pub fn guard_in_graph(
    g: &Region,
    condition: NodeId,
    expected: bool,
) -> Result<Option<Guard>, Refusal>
    ensures { reading_of result ≡ guard_in_graph g.now condition.0 expected }
{
    if count(g) <= condition.0 {
        return Err(Refusal::Id);
    }
    if type_at(g, condition) != ScalarType::Bool {
        return Err(Refusal::Typing);
    }
    Ok(guarded::guarded(g, condition, expected))
}

#[tactic(auto, unfolding(crate::specs::Guard::guard_call))]
pub fn guard(g: &[u64], condition: NodeId, expected: bool) -> Result<Option<Guard>, Refusal>
    ensures { reading_of result ≡ guard_call g.now condition.0 expected }
{
    let region = as_graph(g).ok_or(Refusal::Graph)?;
    guard_in_graph(region, condition, expected)
}
