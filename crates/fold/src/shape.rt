// What the folds read off nodes: types and ranges that fit, and the shapes that they look for.
ghost use Rattle.std.specs.Prelude.{◌≡◌, ◌||◌};
ghost use Rattle.range.specs.Interval.{interval_of};
ghost use Rattle.graph.specs.Node.{type_at, range_at};
ghost use Rattle.fold.specs.Shape.{narrow_type, is_wide, not_negative, fits, maybe_by_constant_of, by_constant_at, id_of, refined_at, origin};

use crate::ByConstant;
use graph::layout::Region;
use graph::read::{literal, operation_at, range_at, type_at};
use graph::walk::walk;
use graph::{NodeId, Operation};
use range::{Range, ScalarType};

// Is it Bits of at most that width?
pub fn is_narrow(ty: ScalarType, width: u16) -> bool
    ensures { result ≡ narrow_type ty width }
{
    matches!(ty, ScalarType::Bits(actual) if actual <= width)
}

// Is it Integer, or Bits of at least that width?
pub fn is_wide(ty: ScalarType, width: u16) -> bool
    ensures { result ≡ is_wide ty width }
{
    match ty {
        ScalarType::Bool => false,
        ScalarType::Bits(actual) => width <= actual,
        ScalarType::Integer => true,
    }
}

pub fn is_not_negative(range: Option<Range>) -> bool
    ensures { result ≡ not_negative (interval_of range) }
{
    range.is_some_and(|bounds| bounds.is_nonnegative())
}

// Is there a range, and does it lie in Bits(width)?
pub fn fits(range: Option<Range>, width: u16) -> bool
    ensures { result ≡ fits width (interval_of range) }
{
    range.is_some_and(|bounds| bounds.is_in_bits(width))
}

// Has the node no bits from that width on, by its type or by its range?
pub fn has_no_bits_above(g: &Region, id: NodeId, width: u16) -> bool
    ensures { result ≡ (narrow_type (type_at g.now id.0) width || fits width (range_at g.now id.0)) }
{
    is_narrow(type_at(g, id), width) || fits(range_at(g, id), width)
}

// The node, if it is a binary operation whose right operand is a constant.
#[tactic(auto, unfolding(crate::specs::Shape::by_constant_at))]
pub fn by_constant_at(g: &Region, id: NodeId) -> Option<ByConstant>
    ensures { maybe_by_constant_of result ≡ by_constant_at g.now id.0 }
{
    let Operation::Binary(op, base, right) = operation_at(g, id) else {
        return None;
    };
    let value = literal(g, right)?;
    Some(ByConstant { op, base, value })
}

// The source of the node, if it is a Refine.
#[tactic(auto, unfolding(crate::specs::Shape::refined_at))]
pub fn refined_at(g: &Region, id: NodeId) -> Option<NodeId>
    ensures { id_of result ≡ refined_at g.now id.0 }
{
    match operation_at(g, id) {
        Operation::Refine(source) => Some(source),
        _ => None,
    }
}

// The node that a chain of Refines starts from.
pub fn origin(g: &Region, id: NodeId) -> NodeId
    ensures { result.0 ≡ origin g.now id.0 }
{
    walk(id, |at: NodeId| refined_at(g, at))
}
