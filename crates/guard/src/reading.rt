// What a condition is: the BoolNots before it are taken off, and the rest may be a comparison.
ghost use Rattle.std.specs.Prelude.{◌≡◌};
ghost use Rattle.graph.specs.Node.{op_of};
ghost use Rattle.fold.specs.Shape.{id_of};
ghost use Rattle.guard.specs.Condition.{condition_of, negated_of, negated_at, behind_nots, comparison_of, compared_by, comparison_at};

use crate::{Comparison, Condition};
use evaluate::Unary;
use fold::operator::is_comparison;
use graph::layout::Region;
use graph::read::operation_at;
use graph::walk::walk;
use graph::{NodeId, Operation};

fn negated_of(operation: Operation) -> Option<NodeId>
    ensures { id_of result ≡ negated_of (op_of operation) }
{
    match operation {
        Operation::Unary(Unary::BoolNot, value) => Some(value),
        _ => None,
    }
}

// The operand of the node, if it is a BoolNot.
#[tactic(auto, unfolding(crate::specs::Condition::negated_at))]
fn negated_at(g: &Region, id: NodeId) -> Option<NodeId>
    ensures { id_of result ≡ negated_at g.now id.0 }
{
    negated_of(operation_at(g, id))
}

// The condition with the BoolNots before it taken off; each turns what is expected.
pub fn behind_nots(g: &Region, id: NodeId, expected: bool) -> Condition
    ensures { condition_of result ≡ behind_nots g.now id.0 expected }
{
    let condition = Condition { node: id, expected };
    walk(condition, |at: Condition| {
        Some(Condition {
            node: negated_at(g, at.node)?,
            expected: !at.expected,
        })
    })
}

fn compared_by(operation: Operation) -> Option<Comparison>
    ensures { comparison_of result ≡ compared_by (op_of operation) }
{
    match operation {
        Operation::Binary(op, left, right) if is_comparison(op) => {
            Some(Comparison { op, left, right })
        }
        _ => None,
    }
}

// The node, if it is a comparison.
#[tactic(auto, unfolding(crate::specs::Condition::comparison_at))]
pub fn comparison_at(g: &Region, id: NodeId) -> Option<Comparison>
    ensures { comparison_of result ≡ comparison_at g.now id.0 }
{
    compared_by(operation_at(g, id))
}
