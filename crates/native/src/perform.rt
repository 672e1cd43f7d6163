// A request performed: the questions in their order, the work, and what a refusal takes back.
ghost use Rattle.std.specs.Prelude.{true, ◌≡◌, ◌≤◌};
ghost use Rattle.graph.specs.Insert.{built_of};
ghost use Rattle.graph.specs.Layout.{LIMIT, count_of};
ghost use Rattle.graph.specs.WellFormed.{is_graph};
ghost use Rattle.assume.specs.Assume.{refined_both, assumed_guard};
ghost use Rattle.assume.specs.Limits.{pair_of};
ghost use Rattle.native.specs.Call.{answer_of, called};
ghost use Rattle.request.specs.Request.{request_of};
ghost use Rattle.native.specs.Perform.{UNITS, settled, guard_out, worked, performed, left, request_in_graph, request_call};

use crate::{Answer, direct};
use answer::Refusal;
use assume::guard_assumed::refine_both;
use assume::narrowing::narrowing;
use assume::{Full, Sides};
use build::{Budget, range_test};
use graph::alias::{restore, save_aliases};
use graph::clear::clear_from;
use graph::layout::{NODES, Region, count};
use graph::well_formed::is_graph;
use graph::{NodeId, Unbuilt, leaf};
use request::Request;
use request::questions::{are_ids, are_widths, is_declarable, is_typed};

// The units of a call.
pub const UNITS: u64 = 1024;
// Up to so many nodes guards keep the alias words in a small place.
pub const FEW: usize = 128;

pub(crate) fn full_budget() -> Budget
    ensures { result.units ≡ UNITS }
{
    Budget { units: UNITS }
}

// A builder's answer to a caller, who says what no room is: `full` is handed down to here because a quota has a refusal of its own (docs/DECISIONS.md).
pub(crate) fn settle(built: Result<NodeId, Unbuilt>, full: Refusal) -> Result<Answer, Refusal>
    ensures { answer_of result ≡ settled full (built_of built) }
{
    match built {
        Ok(id) => Ok(Answer::Id(id)),
        Err(Unbuilt::None) => Ok(Answer::None),
        Err(Unbuilt::Room) => Err(full),
        Err(Unbuilt::Units) => Err(Refusal::Units),
    }
}

// Both operands of a graph of at most N nodes are refined; without room for a node the aliases and nodes are taken back.
#[tactic(auto, using(graph::proofs::Grown::graph_facts))]
fn refine_or_restore<const N: usize>(
    g: &mut Region,
    both: Sides,
    full: Refusal,
) -> Result<Answer, Refusal>
    requires { (is_graph g.old ≡ true) × (count_of g.old ≤ N) × (N ≤ LIMIT) }
    ensures { called (answer_of result) g.new ≡ guard_out full g.old (refined_both g.old both.left.0 both.right.0 (pair_of both.limits)).outcome (refined_both g.old both.left.0 both.right.0 (pair_of both.limits)).words }
{
    let nodes = count(g);
    let mut words = [0; N];
    save_aliases(g, &mut words);
    match refine_both(g, both) {
        Ok(_) => Ok(Answer::Done),
        Err(Full) => {
            restore(g, nodes, &words);
            Err(full)
        }
    }
}

// A condition is assumed. Most guards narrow nothing and need nothing saved, and most graphs are small: a place for all nodes that there can be takes longer to make.
#[tactic(auto, using(assume::proofs::Idle::guard_narrowing, graph::proofs::Grown::graph_facts))]
fn assume_or_restore(
    g: &mut Region,
    condition: NodeId,
    expected: bool,
    full: Refusal,
) -> Result<Answer, Refusal>
    requires { is_graph g.old ≡ true }
    ensures { called (answer_of result) g.new ≡ guard_out full g.old (assumed_guard g.old condition.0 expected).outcome (assumed_guard g.old condition.0 expected).words }
{
    let Some(both) = narrowing(g, condition, expected) else {
        return Ok(Answer::Done);
    };
    if count(g) <= FEW as u64 {
        refine_or_restore::<FEW>(g, both, full)
    } else {
        refine_or_restore::<NODES>(g, both, full)
    }
}

// The work on a request whose questions are answered yes.
#[tactic(auto, unfolding(crate::specs::Perform::worked))]
fn work(g: &mut Region, request: Request, full: Refusal) -> Result<Answer, Refusal>
    requires { is_graph g.old ≡ true }
    ensures { called (answer_of result) g.new ≡ worked full g.old (request_of request) }
{
    match request {
        Request::Constant(value, ty) => settle(leaf::constant(g, ty, value), full),
        Request::Input(id, range, ty) => settle(leaf::input(g, id, ty, range), full),
        Request::Effect(id, ty) => settle(leaf::effect(g, id, ty), full),
        Request::Unary(value, ty, op) => direct::unary(g, ty, op, value, full),
        Request::Binary(left, right, ty, op) => direct::binary(g, ty, op, left, right, full),
        Request::Slice(value, offset, width) => direct::slice(
            g,
            value,
            u64::from(offset),
            width,
            full,
        ),
        Request::Concat(high, low, low_width, width) => {
            let built = build::concat(g, &mut full_budget(), high, low, low_width, width);
            settle(built, full)
        }
        Request::UnsignedRange(value, low, high) => {
            let built = range_test::unsigned_range(g, &mut full_budget(), value, low, high);
            settle(built, full)
        }
        Request::Guard(condition, expected) => assume_or_restore(g, condition, expected, full),
        Request::UnnamedLeaf(_) => Err(Refusal::Typing),
        Request::UnnamedOperation(..) => Err(Refusal::Typing),
    }
}

// A refusal takes back what was added since there were `nodes` nodes.
#[tactic(auto, using(crate::proofs::Parts::refused_is))]
fn take_back(g: &mut Region, nodes: u64, answer: Result<Answer, Refusal>)
    requires { nodes ≤ LIMIT }
    ensures { g.new ≡ left nodes (answer_of answer) g.old }
{
    if answer.is_err() {
        clear_from(g, nodes);
    }
}

// Questions 2 to 5, then the work; `full` is the answer without room for a node.
#[tactic(auto, using(graph::proofs::Grown::graph_facts), unfolding(crate::specs::Perform::performed))]
fn perform(g: &mut Region, request: Request, full: Refusal) -> Result<Answer, Refusal>
    requires { is_graph g.old ≡ true }
    ensures { called (answer_of result) g.new ≡ performed full g.old (request_of request) }
{
    let nodes = count(g);
    if !are_widths(request) {
        return Err(Refusal::Width);
    }
    if !are_ids(nodes, request) {
        return Err(Refusal::Id);
    }
    if !is_typed(g, request) {
        return Err(Refusal::Typing);
    }
    if !is_declarable(request) {
        return Err(Refusal::Value);
    }
    let answer = work(g, request, full);
    take_back(g, nodes, answer);
    answer
}

// For a caller that knows the region to be a graph: question 1 is not asked. On another region nothing is promised.
// The fact is a clause in every `.._in_graph` that writes: a struct that holds the region with it has to show it again after the call, and that a builder leaves every graph a
// graph is proved of grown graphs alone (`grown-graph` in meaning/proofs/Demand3.antt).
#[tactic(auto, unfolding(crate::specs::Perform::request_in_graph))]
pub fn call_in_graph(g: &mut Region, request: Request) -> Result<Answer, Refusal>
    requires { is_graph g.old ≡ true }
    ensures { called (answer_of result) g.new ≡ request_in_graph g.old (request_of request) }
{
    perform(g, request, Refusal::Room)
}

#[tactic(auto, unfolding(crate::specs::Perform::request_call, graph::specs::WellFormed::is_graph))]
pub fn call(g: &mut [u64], request: Request) -> Result<Answer, Refusal>
    ensures { called (answer_of result) g.new ≡ request_call g.old (request_of request) }
{
    let region = g.as_mut_array().ok_or(Refusal::Graph)?;
    if is_graph(region) {
        call_in_graph(region, request)
    } else {
        Err(Refusal::Graph)
    }
}
