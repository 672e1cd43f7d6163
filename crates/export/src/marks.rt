// Marks for C and Rust: a mark is its number, Done and refusals are as in every answer. What lent words are is a clause, as in calls.rt.
ghost use Rattle.std.specs.Prelude.{true, ◌≡◌};
ghost use Rattle.word.specs.Option.{from_bool};
ghost use Rattle.mark.specs.WellFormed.{is_marked};
ghost use Rattle.mark.specs.Mark.{mark_in_graph, mark_call, return_in_graph, return_call};
ghost use Rattle.export.specs.Marks.{MarkedAs, ReturnedAs};

use mark::well_formed::is_marked;
use mark::{MarkId, calls};
use native::Numbered;

// Question 1 of a graph with its marks: 1 or 0.
#[unsafe(no_mangle)]
pub extern "C" fn scalars_is_marked(g: &[u64], m: &[u64]) -> u64
    ensures { result ≡ from_bool (is_marked g.now m.now) }
{
    u64::from(is_marked(g, m))
}

// For a caller that knows the regions to be a graph with its marks: on other regions nothing is promised, not even that lent words
// alone are touched.
#[unsafe(no_mangle)]
#[tactic(auto, using(graph::proofs::Grown::graph_facts), unfolding(mark::specs::WellFormed::is_marked, mark::specs::WellFormed::are_marks))]
pub extern "C" fn scalars_mark_in_graph(g: &[u64], m: &mut [u64]) -> u64
    requires { is_marked g.now m.old ≡ true }
    ensures { MarkedAs result m.new (mark_in_graph g.now m.old) }
{
    let graph = g.as_array().unwrap();
    let marks = m.as_mut_array().unwrap();
    calls::mark_in_graph(graph, marks).number()
}

#[unsafe(no_mangle)]
pub extern "C" fn scalars_mark(g: &[u64], m: &mut [u64]) -> u64
    ensures { MarkedAs result m.new (mark_call g.now m.old) }
{
    calls::mark(g, m).number()
}

// As scalars_mark_in_graph.
#[unsafe(no_mangle)]
#[tactic(auto, using(native::proofs::Numbers::number_answer, graph::proofs::Grown::graph_facts), unfolding(mark::specs::WellFormed::is_marked, mark::specs::WellFormed::are_marks))]
pub extern "C" fn scalars_return_to_in_graph(g: &mut [u64], m: &mut [u64], mark: u64) -> u64
    requires { is_marked g.old m.old ≡ true }
    ensures { ReturnedAs result g.new m.new (return_in_graph g.old m.old mark) }
{
    let graph = g.as_mut_array().unwrap();
    let marks = m.as_mut_array().unwrap();
    calls::return_to_in_graph(graph, marks, MarkId(mark)).number()
}

#[unsafe(no_mangle)]
pub extern "C" fn scalars_return_to(g: &mut [u64], m: &mut [u64], mark: u64) -> u64
    ensures { ReturnedAs result g.new m.new (return_call g.old m.old mark) }
{
    calls::return_to(g, m, MarkId(mark)).number()
}
