// The call assume_guards. `.._in_graph` is for a caller that knows the region to be a graph: on another region nothing is promised. The fact is a clause, as in
// native/src/perform.rt.
ghost use Rattle.std.specs.Prelude.{true, ◌≡◌, ◌≤◌};
ghost use Rattle.graph.specs.Layout.{LIMIT, count_of};
ghost use Rattle.graph.specs.WellFormed.{is_graph};
ghost use Rattle.native.specs.Call.{answer_of, called};
ghost use Rattle.native.specs.Perform.{finished};
ghost use Rattle.guard_list.specs.GuardList.{guards_of, in_turn, guards_in_graph, guards_call};

use crate::Guards;
use crate::in_turn::{assume_in_turn, idle_guards};
use crate::list::is_guard_list;
use answer::Refusal;
use graph::alias::{restore, save_aliases};
use graph::layout::{NODES, Region, count};
use graph::well_formed::is_graph;
use native::Answer;
use native::perform::FEW;

// All guards of a list on a graph of at most N nodes, or none: a refusal takes back the nodes and the aliases.
#[tactic(auto, using(graph::proofs::Grown::graph_facts))]
fn take_or_restore<const N: usize>(g: &mut Region, guards: Guards) -> Result<Answer, Refusal>
    requires { (is_graph g.old ≡ true) × (count_of g.old ≤ N) × (N ≤ LIMIT) }
    ensures { called (answer_of result) g.new ≡ finished g.old (in_turn g.old (guards_of guards.entry.conditions.now guards.entry.answers.now)) }
{
    let nodes = count(g);
    let mut words = [0; N];
    save_aliases(g, &mut words);
    match assume_in_turn(g, guards) {
        Ok(()) => Ok(Answer::Done),
        Err(refusal) => {
            restore(g, nodes, &words);
            Err(refusal)
        }
    }
}

// A list whose guards narrow nothing needs nothing saved.
#[tactic(auto, using(graph::proofs::Grown::graph_facts))]
fn assume_all(g: &mut Region, guards: Guards) -> Result<Answer, Refusal>
    requires { is_graph g.old ≡ true }
    ensures { called (answer_of result) g.new ≡ finished g.old (in_turn g.old (guards_of guards.entry.conditions.now guards.entry.answers.now)) }
{
    let idle = idle_guards(g, guards)?;
    let rest = Guards {
        conditions: &guards.conditions[idle..],
        answers: &guards.answers[idle..],
    };
    if rest.conditions.is_empty() {
        Ok(Answer::Done)
    } else if count(g) <= FEW as u64 {
        take_or_restore::<FEW>(g, rest)
    } else {
        take_or_restore::<NODES>(g, rest)
    }
}

#[tactic(auto, using(crate::proofs::Lists::even), unfolding(crate::specs::GuardList::guards_in_graph))]
pub fn assume_guards_in_graph(
    g: &mut Region,
    conditions: &[u64],
    answers: &[u64],
) -> Result<Answer, Refusal>
    requires { is_graph g.old ≡ true }
    ensures { called (answer_of result) g.new ≡ guards_in_graph g.old conditions.now answers.now }
{
    if is_guard_list(conditions, answers) {
        assume_all(
            g,
            Guards {
                conditions,
                answers,
            },
        )
    } else {
        Err(Refusal::Guards)
    }
}

#[tactic(auto, unfolding(crate::specs::GuardList::guards_call, graph::specs::WellFormed::is_graph))]
pub fn assume_guards(g: &mut [u64], conditions: &[u64], answers: &[u64]) -> Result<Answer, Refusal>
    ensures { called (answer_of result) g.new ≡ guards_call g.old conditions.now answers.now }
{
    let region = g.as_mut_array().ok_or(Refusal::Graph)?;
    if is_graph(region) {
        assume_guards_in_graph(region, conditions, answers)
    } else {
        Err(Refusal::Graph)
    }
}
