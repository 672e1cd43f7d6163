// The call of retain, which drops all marks. `retain_in_graph` is for a caller that knows the regions to be a graph with its marks: on
// other regions nothing is promised. The fact is a clause, as in native/src/perform.rt.
ghost use Rattle.std.specs.Prelude.{true, ◌≡◌};
ghost use Rattle.native.specs.Retain.{outcome_of, retention};
ghost use Rattle.mark.specs.WellFormed.{is_marked};
ghost use Rattle.mark.specs.Mark.{unmarked, retaining, retain_in_graph, retain_call};

use crate::layout::Marks;
use crate::moving::leave_standing;
use crate::well_formed::is_marked;
use answer::Refusal;
use graph::layout::Region;
use native::retain_nodes::retain_unmarked_in_graph;

// After a retain that is not refused no mark stands.
fn drop_marks(m: &mut Marks, retained: Result<u64, Refusal>)
    ensures { m.new ≡ unmarked (outcome_of retained) m.old }
{
    if retained.is_ok() {
        leave_standing(m, 0);
    }
}

#[tactic(auto, unfolding(crate::specs::Mark::retain_in_graph, crate::specs::WellFormed::is_marked))]
pub fn retain_in_graph(
    g: &mut Region,
    m: &mut Marks,
    keep: &[u8],
    mapping: &mut [u64],
) -> Result<u64, Refusal>
    requires { is_marked g.old m.old ≡ true }
    ensures { retaining (retention (outcome_of result) g.new mapping.new) m.new ≡ retain_in_graph g.old m.old keep.now mapping.old }
{
    let retained = retain_unmarked_in_graph(g, keep, mapping);
    drop_marks(m, retained);
    retained
}

#[tactic(auto, using(crate::proofs::Facts::short_marks, crate::proofs::Facts::short_graph), unfolding(crate::specs::Mark::retain_call))]
pub fn retain(
    g: &mut [u64],
    m: &mut [u64],
    keep: &[u8],
    mapping: &mut [u64],
) -> Result<u64, Refusal>
    ensures { retaining (retention (outcome_of result) g.new mapping.new) m.new ≡ retain_call g.old m.old keep.now mapping.old }
{
    let region = g.as_mut_array().ok_or(Refusal::Graph)?;
    let marks = m.as_mut_array().ok_or(Refusal::Graph)?;
    if is_marked(region, marks) {
        retain_in_graph(region, marks, keep, mapping)
    } else {
        Err(Refusal::Graph)
    }
}
