// A list of guards for C and Rust: two slices of words, a condition and an expected answer for each guard. What lent words are is a clause, as in calls.rt.
ghost use Rattle.std.specs.Prelude.{true, ◌≡◌};
ghost use Rattle.graph.specs.WellFormed.{is_graph};
ghost use Rattle.guard_list.specs.GuardList.{guards_in_graph, guards_call};
ghost use Rattle.export.specs.Export.{exported, numbered};

use guard_list::calls;
use native::Numbered;

// For a caller that knows the region to be a graph: on another region nothing is promised, not even that lent words alone are touched.
#[unsafe(no_mangle)]
#[tactic(auto, using(native::proofs::Numbers::number_answer, graph::proofs::Grown::graph_facts))]
pub extern "C" fn scalars_assume_guards_in_graph(
    g: &mut [u64],
    conditions: &[u64],
    answers: &[u64],
) -> u64
    requires { is_graph g.old ≡ true }
    ensures { exported result g.new ≡ numbered (guards_in_graph g.old conditions.now answers.now) }
{
    let graph = g.as_mut_array().unwrap();
    calls::assume_guards_in_graph(graph, conditions, answers).number()
}

#[unsafe(no_mangle)]
pub extern "C" fn scalars_assume_guards(g: &mut [u64], conditions: &[u64], answers: &[u64]) -> u64
    ensures { exported result g.new ≡ numbered (guards_call g.old conditions.now answers.now) }
{
    calls::assume_guards(g, conditions, answers).number()
}
