// The call of retain for C and Rust: the nodes left, or a refusal counted down from the largest number. What lent words are is a clause, as in calls.rt.
ghost use Rattle.std.specs.Prelude.{true, ◌≡◌};
ghost use Rattle.mark.specs.WellFormed.{is_marked};
ghost use Rattle.mark.specs.Mark.{retain_in_graph, retain_call};
ghost use Rattle.export.specs.Marks.{KeptAs};

use mark::retain_nodes::{retain, retain_in_graph};
use native::Numbered;

// For a caller that knows the regions to be a graph with its marks: on other regions nothing is promised, not even that lent words
// alone are touched.
#[unsafe(no_mangle)]
#[tactic(auto, using(graph::proofs::Grown::graph_facts), unfolding(mark::specs::WellFormed::is_marked, mark::specs::WellFormed::are_marks))]
pub extern "C" fn scalars_retain_in_graph(
    g: &mut [u64],
    m: &mut [u64],
    keep: &[u8],
    mapping: &mut [u64],
) -> u64
    requires { is_marked g.old m.old ≡ true }
    ensures { KeptAs result g.new m.new mapping.new (retain_in_graph g.old m.old keep.now mapping.old) }
{
    let graph = g.as_mut_array().unwrap();
    let marks = m.as_mut_array().unwrap();
    retain_in_graph(graph, marks, keep, mapping).number()
}

#[unsafe(no_mangle)]
pub extern "C" fn scalars_retain(
    g: &mut [u64],
    m: &mut [u64],
    keep: &[u8],
    mapping: &mut [u64],
) -> u64
    ensures { KeptAs result g.new m.new mapping.new (retain_call g.old m.old keep.now mapping.old) }
{
    retain(g, m, keep, mapping).number()
}
