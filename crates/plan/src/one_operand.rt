// The plans of identity, unary and modular.
ghost use Rattle.std.specs.Prelude.{not, ◌≡◌};
ghost use Rattle.range.specs.Interval.{interval_of};
ghost use Rattle.word.specs.Value.{number_of};
ghost use Rattle.graph.specs.Node.{op_of};
ghost use Rattle.plan.specs.Plan.{plan_of, first_of, constant_or, is_stop};
ghost use Rattle.fold.specs.Range.{derived_of};
ghost use Rattle.plan.specs.OneOperand.{view_plan, identity_plan, is_reduction, is_view, add_or, unary_plan, unary_open, unary_first, view_at, view_of, truncated_plan, modular_plan};

use crate::{Attempt, First, Plan, Rest, View};
use evaluate::Unary;
use evaluate::one_operand::unary_value;
use fold::new_range::unary_range;
use fold::operator::is_modular;
use fold::shape::{fits, is_not_negative, is_wide, refined_at};
use graph::layout::Region;
use graph::read::{literal, operation_at, range_at, resolve, type_at};
use graph::walk::walk;
use graph::{NodeId, Operation};
use range::{Range, ScalarType};
use word::Word;

// A value seen at another type.
fn view_plan(ty: ScalarType, range: Option<Range>, value: NodeId) -> Plan
    ensures { plan_of result ≡ view_plan ty (interval_of range) value.0 }
{
    let view = Plan::Add(range, Operation::Refine(value), ty);
    match ty {
        ScalarType::Bool if fits(range, 1) => view,
        ScalarType::Bits(width) if fits(range, width) => view,
        ScalarType::Bits(width) => Plan::Unary(value, ty, Unary::Truncate(width)),
        ScalarType::Integer if is_not_negative(range) => view,
        _ => Plan::None,
    }
}

#[tactic(auto, unfolding(crate::specs::OneOperand::identity_plan))]
pub fn identity_plan(g: &Region, ty: ScalarType, value: NodeId) -> Plan
    ensures { plan_of result ≡ identity_plan g.now ty value.0 }
{
    if type_at(g, value) == ty {
        return Plan::Give(value);
    }
    view_plan(ty, range_at(g, value), value)
}

// A truncation to the result's own width.
fn is_reduction(ty: ScalarType, op: Unary) -> bool
    ensures { result ≡ is_reduction ty op }
{
    matches!(op, Unary::Truncate(width) if ty == ScalarType::Bits(width))
}

// Does the operator leave a value of this type and range as it is?
fn is_view(op: Unary, ty: ScalarType, range: Option<Range>) -> bool
    ensures { result ≡ is_view op ty (interval_of range) }
{
    match op {
        Unary::Truncate(width) => fits(range, width) || ty == ScalarType::Bits(width),
        Unary::SignExtend(width) => 0 < width && width <= 128 && fits(range, width - 1),
        _ => false,
    }
}

// A node with its range, or None.
fn add_or_none(ty: ScalarType, derived: Option<Option<Range>>, operation: Operation) -> Plan
    ensures { plan_of result ≡ add_or ty (derived_of derived) (op_of operation) }
{
    derived.map_or(Plan::None, |range| Plan::Add(range, operation, ty))
}

// A constant, or None without a value.
pub fn constant_or_none(ty: ScalarType, value: Option<Word>) -> Plan
    ensures { plan_of result ≡ constant_or ty (number_of value) }
{
    value.map_or(Plan::None, |constant| Plan::Constant(constant, ty))
}

// unary after modular: the value itself, or a node.
#[tactic(auto, unfolding(crate::specs::OneOperand::unary_plan))]
pub fn unary_plan(g: &Region, ty: ScalarType, op: Unary, value: NodeId) -> Plan
    ensures { plan_of result ≡ unary_plan g.now ty op value.0 }
{
    let range = range_at(g, value);
    if is_view(op, type_at(g, value), range) {
        return Plan::Identity(value, ty);
    }
    add_or_none(ty, unary_range(ty, op, range), Operation::Unary(op, value))
}

fn unary_open(g: &Region, ty: ScalarType, op: Unary, value: NodeId) -> First
    ensures { first_of result ≡ unary_open g.now ty op value.0 }
{
    if is_reduction(ty, op) {
        return First::Try(
            Attempt::Modular(value, op.width()),
            Rest::Unary(value, ty, op),
        );
    }
    First::Do(unary_plan(g, ty, op, value))
}

#[tactic(auto, unfolding(crate::specs::OneOperand::unary_first))]
pub fn unary_first(g: &Region, ty: ScalarType, op: Unary, value: NodeId) -> First
    ensures { first_of result ≡ unary_first g.now ty op value.0 }
{
    // A match: `map_or_else` copies what is handed back, at three instructions a call.
    match literal(g, value) {
        Some(constant) => First::Do(constant_or_none(ty, unary_value(op, constant))),
        None => unary_open(g, ty, op, value),
    }
}

// Down a chain of Refines to the first source of the type, or to where the chain starts.
fn view_at(g: &Region, ty: ScalarType, id: NodeId) -> View
    ensures { view_of result ≡ view_at g.now ty id.0 }
{
    walk(View::Source(id), |view: View| {
        let View::Source(at) = view else {
            return None;
        };
        let previous = refined_at(g, at)?;
        if type_at(g, previous) == ty {
            Some(View::Same(previous))
        } else {
            Some(View::Source(previous))
        }
    })
}

fn truncated_plan(width: u16, operation: Operation) -> Plan
    ensures { plan_of result ≡ truncated_plan width (op_of operation) }
{
    match operation {
        Operation::Binary(op, left, right) if is_modular(op) => {
            Plan::Truncated(left, right, width, op)
        }
        _ => Plan::None,
    }
}

#[tactic(auto, unfolding(crate::specs::OneOperand::modular_plan))]
pub fn modular_plan(g: &Region, value: NodeId, width: u16) -> Plan
    ensures { plan_of result ≡ modular_plan g.now value.0 width }
{
    match view_at(g, ScalarType::Bits(width), value) {
        View::Same(previous) => Plan::Give(resolve(g, previous)),
        // A narrower reduction has to stay visible.
        View::Source(source) if is_wide(type_at(g, source), width) => {
            truncated_plan(width, operation_at(g, source))
        }
        View::Source(_) => Plan::None,
    }
}

// Does modular come to more than None?
pub fn has_modular_plan(g: &Region, value: NodeId, width: u16) -> bool
    ensures { result ≡ not (is_stop (modular_plan g.now value.0 width)) }
{
    !matches!(modular_plan(g, value, width), Plan::None)
}
