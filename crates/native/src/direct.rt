// The builders as a call makes them. Most operations fold to nothing: their plan is one node, and it is added at once.
// What else a builder hands on, from step to step, costs more time than deciding; so only the others are built.
// The three ends are alike, but what each promises names its own plan and builder: one function over a closure would say both ways of ending in its contract.
ghost use Rattle.std.specs.Prelude.{not, ◌&&◌, ◌≡◌, eqb};
ghost use Rattle.word.specs.Option.{is_some};
ghost use Rattle.range.specs.declared.ScalarType.TheVariants as type;
ghost use Rattle.evaluate.specs.Operator.{unary_width};
ghost use Rattle.graph.specs.Insert.{literal};
ghost use Rattle.fold.specs.Operator.{equalities, shifts};
ghost use Rattle.fold.specs.Shape.{same_type, is_any};
ghost use Rattle.bitfield.specs.Bitfield.{fold_masked_comparison};
ghost use Rattle.plan.specs.Plan.{is_stop};
ghost use Rattle.plan.specs.OneOperand.{modular_plan};
ghost use Rattle.build.specs.Build as call;
ghost use Rattle.build.specs.Build.{build};
ghost use Rattle.native.specs.Call.{answer_of, called};
ghost use Rattle.native.specs.Perform.{UNITS, builder_out};

use crate::Answer;
use crate::perform::{full_budget, settle};
use answer::Refusal;
use bitfield::equality::fold_masked_comparison;
use evaluate::{Binary, Unary};
use fold::operator::{is_equality, is_folded_shift};
use graph::NodeId;
use graph::insert::insert;
use graph::layout::Region;
use graph::read::{literal, resolve};
use plan::Plan;
use plan::one_operand::{has_modular_plan, unary_plan};
use plan_binary::BinaryNode;
use plan_binary::binary::binary_plan;
use plan_slice::slice::slice_plan;
use range::ScalarType;

// Does unary decide by its plan alone? The operand is no constant, and no truncation is pushed through it.
fn is_unary_open(g: &Region, ty: ScalarType, op: Unary, value: NodeId) -> bool
    ensures { result ≡ not (is_some (literal g.now value.0)) && not (same_type ty (type.Bits (unary_width op)) && not (is_stop (modular_plan g.now value.0 (unary_width op)))) }
{
    let width = op.width();
    let is_reduction = ty == ScalarType::Bits(width);
    literal(g, value).is_none() && !(is_reduction && has_modular_plan(g, value, width))
}

pub(crate) fn unary(
    g: &mut Region,
    ty: ScalarType,
    op: Unary,
    value: NodeId,
    full: Refusal,
) -> Result<Answer, Refusal>
    ensures { called (answer_of result) g.new ≡ builder_out full (build (call.unary ty op value.0) UNITS g.old) }
{
    let id = resolve(g, value);
    if is_unary_open(g, ty, op, id) {
        let plan = unary_plan(g, ty, op, id);
        if let Plan::Add(range, operation, kind) = plan {
            return settle(insert(g, kind, range, operation), full);
        }
    }
    let built = build::unary(g, &mut full_budget(), ty, op, value);
    settle(built, full)
}

// Is there a masked comparison to try?
fn is_masked(g: &Region, op: Binary, left: NodeId, right: NodeId) -> bool
    ensures { result ≡ is_any equalities op && is_some (fold_masked_comparison g.now op left.0 right.0) }
{
    is_equality(op) && fold_masked_comparison(g, op, left, right).is_some()
}

// Does binary decide by its plan alone? The left operand is no constant, no shift is folded, and no masked comparison is tried.
fn is_binary_open(g: &Region, op: Binary, left: NodeId, right: NodeId) -> bool
    ensures { result ≡ not (is_some (literal g.now left.0)) && (not (is_any shifts op) && not (is_any equalities op && is_some (fold_masked_comparison g.now op left.0 right.0))) }
{
    literal(g, left).is_none() && !is_folded_shift(op) && !is_masked(g, op, left, right)
}

pub(crate) fn binary(
    g: &mut Region,
    ty: ScalarType,
    op: Binary,
    left: NodeId,
    right: NodeId,
    full: Refusal,
) -> Result<Answer, Refusal>
    ensures { called (answer_of result) g.new ≡ builder_out full (build (call.binary ty op left.0 right.0) UNITS g.old) }
{
    let a = resolve(g, left);
    let b = resolve(g, right);
    if is_binary_open(g, op, a, b) {
        let node = BinaryNode {
            ty,
            op,
            left: a,
            right: b,
        };
        let plan = binary_plan(g, node);
        if let Plan::Add(range, operation, kind) = plan {
            return settle(insert(g, kind, range, operation), full);
        }
    }
    let built = build::binary(g, &mut full_budget(), ty, op, left, right);
    settle(built, full)
}

// Does slice decide by its plan alone? The operand is no constant, and no slice from 0 is a truncation pushed through it.
fn is_slice_open(g: &Region, value: NodeId, offset: u64, width: u16) -> bool
    ensures { result ≡ not (is_some (literal g.now value.0)) && not (eqb offset 0 && not (is_stop (modular_plan g.now value.0 width))) }
{
    literal(g, value).is_none() && !(offset == 0 && has_modular_plan(g, value, width))
}

pub(crate) fn slice(
    g: &mut Region,
    value: NodeId,
    offset: u64,
    width: u16,
    full: Refusal,
) -> Result<Answer, Refusal>
    ensures { called (answer_of result) g.new ≡ builder_out full (build (call.slice value.0 offset width) UNITS g.old) }
{
    let id = resolve(g, value);
    if is_slice_open(g, id, offset, width) {
        let plan = slice_plan(g, id, offset, width);
        if let Plan::Add(range, operation, kind) = plan {
            return settle(insert(g, kind, range, operation), full);
        }
    }
    let built = build::slice(g, &mut full_budget(), value, offset, width);
    settle(built, full)
}
