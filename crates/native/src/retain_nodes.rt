// Retain on a graph's region alone, for a caller that has no marks' region, so that no mark stands; with one it is `mark::retain_nodes`.
// `.._in_graph` is for a caller that knows the region to be a graph, as `call_in_graph` (perform.rt) says.
ghost use Rattle.std.specs.Prelude.{true, ◌≡◌};
ghost use Rattle.graph.specs.WellFormed.{is_graph};
ghost use Rattle.native.specs.Retain.{outcome_of, retention, retain_in_graph, retain_call};

use answer::Refusal;
use graph::layout::Region;
use graph::well_formed::is_graph;
use retain::keep_list::is_keep_list;

#[tactic(auto, unfolding(crate::specs::Retain::retain_in_graph))]
pub fn retain_unmarked_in_graph(
    g: &mut Region,
    keep: &[u8],
    mapping: &mut [u64],
) -> Result<u64, Refusal>
    requires { is_graph g.old ≡ true }
    ensures { retention (outcome_of result) g.new mapping.new ≡ retain_in_graph g.old keep.now mapping.old }
{
    if is_keep_list(g, keep, mapping) {
        Ok(retain::retain(g, keep, mapping))
    } else {
        Err(Refusal::Keep)
    }
}

#[tactic(auto, unfolding(crate::specs::Retain::retain_call, graph::specs::WellFormed::is_graph))]
pub fn retain_unmarked(g: &mut [u64], keep: &[u8], mapping: &mut [u64]) -> Result<u64, Refusal>
    ensures { retention (outcome_of result) g.new mapping.new ≡ retain_call g.old keep.now mapping.old }
{
    let region = g.as_mut_array().ok_or(Refusal::Graph)?;
    if is_graph(region) {
        retain_unmarked_in_graph(region, keep, mapping)
    } else {
        Err(Refusal::Graph)
    }
}
