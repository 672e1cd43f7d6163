// Setting a mark and going back to one, on regions whose questions are answered yes. The bound of a mark's number is a clause of the private functions here, in layout.rt
// and in well_formed.rt: a type for it would be made at each call from the word or the number that was asked of, with the proof that the clause takes.
ghost use Rattle.std.specs.Prelude.{true, ◌≡◌, ◌<◌, ◌≤◌};
ghost use Rattle.graph.specs.Layout.{LIMIT, count_of};
ghost use Rattle.graph.specs.WellFormed.{is_graph};
ghost use Rattle.mark.specs.Layout.{MOST, count_at};
ghost use Rattle.mark.specs.Mark.{marked, returned, standing_only};

use crate::layout::{Marks, aliases_of, nodes_of, start_of};
use graph::alias::{restore_to, save_aliases};
use graph::layout::{NODES, Region, count};

// Mark `mark` of the graph as it is; it is the last.
#[tactic(auto, using(crate::proofs::Marks::marked_by_lem))]
pub(crate) fn set_mark(g: &Region, m: &mut Marks, mark: u64)
    requires { (count_of g.now ≤ LIMIT) × (mark < MOST) }
    ensures { m.new ≡ marked g.now m.old mark }
{
    let at = start_of(mark);
    m[0] = mark + 1;
    m[at] = count(g);
    save_aliases(g, &mut m[at + 1..at + 1 + NODES]);
}

// The graph as it was at a mark.
#[tactic(auto, using(graph::proofs::Grown::graph_facts), unfolding(crate::specs::Mark::returned))]
pub(crate) fn go_back(g: &mut Region, m: &Marks, mark: u64)
    requires { (is_graph g.old ≡ true) × (mark < MOST) × (count_at m.now mark ≤ count_of g.old) }
    ensures { g.new ≡ returned g.old m.now mark }
{
    restore_to(g, nodes_of(m, mark), count(g), aliases_of(m, mark));
}

// The first marks alone stand.
pub(crate) fn leave_standing(m: &mut Marks, marks: u64)
    ensures { m.new ≡ standing_only marks m.old }
{
    m[0] = marks;
}
