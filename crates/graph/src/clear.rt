// Taking nodes off the end of the region.
ghost use Rattle.std.specs.Prelude.{◌≡◌, ◌≤◌};
ghost use Rattle.graph.specs.Layout.{LIMIT};
ghost use Rattle.graph.specs.Clear.{cleared, EmptyPast};

use crate::layout::{LIMIT, Region, start_of};

// Leaves the first `nodes` nodes, where every word past the first `count` is 0: `nodes` is the count, and every word past them is 0.
#[tactic(auto, using(crate::proofs::Wiping::wiped))]
pub fn clear_to(g: &mut Region, nodes: u64, count: u64)
    requires { (nodes ≤ count) × (count ≤ LIMIT) × EmptyPast count g.old }
    ensures { g.new ≡ cleared nodes g.old }
{
    g[0] = nodes;
    let from = start_of(nodes);
    let end = start_of(count);
    g[from..end].fill(0);
}

// The same whatever the words past the nodes are. The bound is a clause here and where a call takes back what it did: the numbers are the region's own counts, and a
// type for them would be made at each call, with the proof that the clause takes.
pub fn clear_from(g: &mut Region, nodes: u64)
    requires { nodes ≤ LIMIT }
    ensures { g.new ≡ cleared nodes g.old }
{
    clear_to(g, nodes, LIMIT);
}
