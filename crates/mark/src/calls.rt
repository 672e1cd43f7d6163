// The calls mark and return_to. `.._in_graph` is for a caller that knows the regions to be a graph with its marks, as question 1 asks:
// on other regions nothing is promised. The fact is a clause, as in native/src/perform.rt.
ghost use Rattle.std.specs.Prelude.{true, ◌≡◌};
ghost use Rattle.native.specs.Call.{answer_of};
ghost use Rattle.mark.specs.WellFormed.{is_marked};
ghost use Rattle.mark.specs.Mark.{marking_of, marking, mark_in_graph, mark_call, returning, return_in_graph, return_call};

use crate::MarkId;
use crate::layout::{MOST, Marks, standing};
use crate::moving::{go_back, leave_standing, set_mark};
use crate::well_formed::is_marked;
use answer::Refusal;
use graph::layout::Region;
use native::Answer;

#[tactic(auto, using(graph::proofs::Grown::graph_facts), unfolding(crate::specs::Mark::mark_in_graph, crate::specs::WellFormed::is_marked))]
pub fn mark_in_graph(g: &Region, m: &mut Marks) -> Result<MarkId, Refusal>
    requires { is_marked g.now m.old ≡ true }
    ensures { marking (marking_of result) m.new ≡ mark_in_graph g.now m.old }
{
    let mark = standing(m);
    if mark < MOST {
        set_mark(g, m, mark);
        Ok(MarkId(mark))
    } else {
        Err(Refusal::Marks)
    }
}

#[tactic(auto, using(crate::proofs::Facts::short_marks, crate::proofs::Facts::short_graph), unfolding(crate::specs::Mark::mark_call))]
pub fn mark(g: &[u64], m: &mut [u64]) -> Result<MarkId, Refusal>
    ensures { marking (marking_of result) m.new ≡ mark_call g.now m.old }
{
    let region = g.as_array().ok_or(Refusal::Graph)?;
    let marks = m.as_mut_array().ok_or(Refusal::Graph)?;
    if is_marked(region, marks) {
        mark_in_graph(region, marks)
    } else {
        Err(Refusal::Graph)
    }
}

// The graph as it was at a mark that stands; later marks are dropped.
#[tactic(auto, unfolding(crate::specs::Mark::return_in_graph))]
pub fn return_to_in_graph(g: &mut Region, m: &mut Marks, mark: MarkId) -> Result<Answer, Refusal>
    requires { is_marked g.old m.old ≡ true }
    ensures { returning (answer_of result) g.new m.new ≡ return_in_graph g.old m.old mark.0 }
{
    let number = mark.0;
    if number < standing(m) {
        go_back(g, m, number);
        leave_standing(m, number + 1);
        Ok(Answer::Done)
    } else {
        Err(Refusal::Mark)
    }
}

#[tactic(auto, using(crate::proofs::Facts::short_marks, crate::proofs::Facts::short_graph), unfolding(crate::specs::Mark::return_call))]
pub fn return_to(g: &mut [u64], m: &mut [u64], mark: MarkId) -> Result<Answer, Refusal>
    ensures { returning (answer_of result) g.new m.new ≡ return_call g.old m.old mark.0 }
{
    let region = g.as_mut_array().ok_or(Refusal::Graph)?;
    let marks = m.as_mut_array().ok_or(Refusal::Graph)?;
    if is_marked(region, marks) {
        return_to_in_graph(region, marks, mark)
    } else {
        Err(Refusal::Graph)
    }
}
