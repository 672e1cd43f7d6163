// The guards of a list, one after the other, and how many come before the first that narrows a node.
ghost use Rattle.std.specs.Prelude.{true, ◌≡◌, ◌≤◌, length, drop, MatchResult};
ghost use Rattle.graph.specs.Alias.{Same};
ghost use Rattle.graph.specs.Layout.{count_of};
ghost use Rattle.graph.specs.WellFormed.{is_graph};
ghost use Rattle.request.specs.Request as asks;
ghost use Rattle.assume.specs.Narrowing.{narrowing};
ghost use Rattle.assume.specs.Sides.{sides_of};
ghost use Rattle.native.specs.Call.{done, refused, called};
ghost use Rattle.native.specs.Perform.{asked, finished, request_in_graph};
ghost use Rattle.guard_list.specs.GuardList.{guards_of, in_turn, done_of};

use crate::Guards;
use answer::Refusal;
use assume::guard_assumed::refine_both;
use assume::narrowing::narrowing;
use assume::{Full, Sides};
use graph::NodeId;
use graph::layout::{Region, count};
use graph::read::type_at;
use range::ScalarType;

// What a guard refines at its turn, if it narrows a node: questions 3 and 4 first. Inlined, so that the answer is not copied.
#[inline(always)]
fn narrowed_by(g: &Region, condition: NodeId, expected: bool) -> Result<Option<Sides>, Refusal>
    ensures { MatchResult result
        (λ s. (called done g.now ≡ asked g.now (asks.guard condition.0 expected) (called done g.now)) × (sides_of s ≡ narrowing g.now condition.0 expected))
        (λ r. called (refused r) g.now ≡ asked g.now (asks.guard condition.0 expected) (called done g.now)) }
{
    if condition.0 >= count(g) {
        return Err(Refusal::Id);
    }
    if type_at(g, condition) != ScalarType::Bool {
        return Err(Refusal::Typing);
    }
    Ok(narrowing(g, condition, expected))
}

// A guard at its turn. What it did before it is refused stays.
fn assume_next(g: &mut Region, condition: NodeId, expected: bool) -> Result<(), Refusal>
    requires { is_graph g.old ≡ true }
    ensures answer { finished g.old (called (done_of result) g.new) ≡ request_in_graph g.old (asks.guard condition.0 expected) }
    ensures keys { Same (count_of g.old) g.old g.new }
{
    let Some(both) = narrowed_by(g, condition, expected)? else {
        return Ok(());
    };
    match refine_both(g, both) {
        Ok(_) => Ok(()),
        Err(Full) => Err(Refusal::Room),
    }
}

// The first refusal ends it, and what was done before it stays.
pub(crate) fn assume_in_turn(g: &mut Region, guards: Guards) -> Result<(), Refusal>
    requires { is_graph g.old ≡ true }
    ensures answer { finished g.old (called (done_of result) g.new) ≡ finished g.old (in_turn g.old (guards_of guards.entry.conditions.now guards.entry.answers.now)) }
    ensures keys { Same (count_of g.old) g.old g.new }
{
    for (condition, answer) in guards.conditions.iter().zip(guards.answers) {
        assume_next(g, NodeId(*condition), *answer == 1)?;
    }
    Ok(())
}

// How many guards narrow nothing before one narrows a node. A refusal among them is the list's.
pub(crate) fn idle_guards(g: &Region, guards: Guards) -> Result<usize, Refusal>
    ensures { MatchResult result
        (λ n. (n ≤ length guards.entry.conditions.now) × (in_turn g.now (guards_of guards.entry.conditions.now guards.entry.answers.now) ≡ in_turn g.now (guards_of (drop n guards.entry.conditions.now) (drop n guards.entry.answers.now))))
        (λ r. in_turn g.now (guards_of guards.entry.conditions.now guards.entry.answers.now) ≡ called (refused r) g.now) }
{
    let Guards {
        conditions,
        answers,
    } = guards;
    for n in 0..conditions.len() {
        if narrowed_by(g, NodeId(conditions[n]), answers[n] == 1)?.is_some() {
            return Ok(n);
        }
    }
    Ok(conditions.len())
}
