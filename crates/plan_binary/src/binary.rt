// The plan of binary: its decisions in the source's order.
ghost use Rattle.std.specs.Prelude.{◌≡◌, eqb};
ghost use Rattle.range.specs.Interval.{interval_of};
ghost use Rattle.word.specs.Value.{number_of};
ghost use Rattle.word.specs.Option.{provided, from_bool};
ghost use Rattle.range.specs.declared.ScalarType.TheVariants as type;
ghost use Rattle.plan.specs.Plan as plan;
ghost use Rattle.plan.specs.Plan.{plan_of, decided_of, first_of};
ghost use Rattle.fold.specs.Range.{derived_of};
ghost use Rattle.plan_binary.specs.Binary.{is_swapped, evaluated, compared_plan, with_itself, decided_plan, store_plan, binary_plan, equality_first, open_first, binary_first};

use crate::BinaryNode;
use crate::constant_right::{literal_plan, offset_plan, sum_plan};
use crate::shift::shift_plan;
use bitfield::equality::fold_masked_comparison;
use evaluate::Binary;
use evaluate::two_operands::binary_value;
use fold::compare::compared;
use fold::new_range::binary_range;
use fold::operator::{
    is_commutative, is_equality, is_false_twice, is_kept_twice, is_true_twice, is_zero_twice,
};
use graph::layout::Region;
use graph::read::{literal, range_at};
use graph::{NodeId, Operation};
use plan::one_operand::constant_or_none;
use plan::{Attempt, First, Plan, Rest};
use range::{Range, ScalarType};
use word::Word;

// Does a constant on the left go to the right?
fn is_swapped(op: Binary, left: Option<Word>, right: Option<Word>) -> bool
    ensures { result ≡ is_swapped op (number_of left) (number_of right) }
{
    left.is_some() && right.is_none() && is_commutative(op)
}

// Two constants are evaluated.
fn evaluated(ty: ScalarType, op: Binary, left: Option<Word>, right: Option<Word>) -> Option<Plan>
    ensures { decided_of result ≡ evaluated ty op (number_of left) (number_of right) }
{
    Some(constant_or_none(ty, binary_value(op, ty, left?, right?)))
}

fn truth(value: bool) -> Plan
    ensures { plan_of result ≡ plan.constant type.Bool (from_bool value) }
{
    Plan::Constant(Word::from(value), ScalarType::Bool)
}

// A comparison that the ranges decide.
fn compared_plan(op: Binary, left: Option<Range>, right: Option<Range>) -> Option<Plan>
    ensures { decided_of result ≡ compared_plan op (interval_of left) (interval_of right) }
{
    compared(op, left, right).map(truth)
}

// One node with itself.
#[tactic(auto, unfolding(word::specs::Value::val))]
fn with_itself(node: BinaryNode) -> Option<Plan>
    ensures { decided_of result ≡ provided (eqb node.left.0 node.right.0) (with_itself node.ty node.op node.left.0) }
{
    let BinaryNode {
        ty,
        op,
        left,
        right,
    } = node;
    if left != right {
        return None;
    }
    if is_kept_twice(op) {
        return Some(Plan::Identity(left, ty));
    }
    if is_zero_twice(op) {
        return Some(Plan::Constant(Word::ZERO, ty));
    }
    if is_true_twice(op) {
        return Some(truth(true));
    }
    if is_false_twice(op) {
        return Some(truth(false));
    }
    None
}

// The decisions before the range of the node is known.
fn decided_plan(g: &Region, node: BinaryNode) -> Option<Plan>
    ensures { decided_of result ≡ decided_plan g.now node.ty node.op node.left.0 node.right.0 }
{
    let known = literal(g, node.right);
    offset_plan(g, node, known)
        .or_else(|| compared_plan(node.op, range_at(g, node.left), range_at(g, node.right)))
        .or_else(|| with_itself(node))
        .or_else(|| literal_plan(g, node, known))
}

// A node of this range, or None without one.
fn store_plan(node: BinaryNode, decided: Option<Plan>, derived: Option<Option<Range>>) -> Plan
    ensures { plan_of result ≡ store_plan node.ty node.op node.left.0 node.right.0 (decided_of decided) (derived_of derived) }
{
    let operation = Operation::Binary(node.op, node.left, node.right);
    derived.map_or(Plan::None, |range| {
        decided.unwrap_or(Plan::Add(range, operation, node.ty))
    })
}

// binary after the masked comparison.
#[tactic(auto, unfolding(crate::specs::Binary::binary_plan))]
pub fn binary_plan(g: &Region, node: BinaryNode) -> Plan
    ensures { plan_of result ≡ binary_plan g.now node.ty node.op node.left.0 node.right.0 }
{
    if let Some(plan) = decided_plan(g, node) {
        return plan;
    }
    let left = range_at(g, node.left);
    let right = range_at(g, node.right);
    let derived = binary_range(node.ty, node.op, left, right);
    let summed = sum_plan(g, node, literal(g, node.right));
    store_plan(node, summed, derived)
}

// Equal and NotEqual try the masked comparison first.
fn equality_first(g: &Region, node: BinaryNode) -> First
    ensures { first_of result ≡ equality_first g.now node.ty node.op node.left.0 node.right.0 }
{
    let BinaryNode {
        ty,
        op,
        left,
        right,
    } = node;
    if !is_equality(op) {
        return First::Do(binary_plan(g, node));
    }
    // A match: `map_or_else` copies what is handed back, at three instructions a call.
    match fold_masked_comparison(g, op, left, right) {
        Some(masked) => First::Try(Attempt::Masked(masked), Rest::Binary(left, right, ty, op)),
        None => First::Do(binary_plan(g, node)),
    }
}

fn open_first(g: &Region, node: BinaryNode) -> First
    ensures { first_of result ≡ open_first g.now node.ty node.op node.left.0 node.right.0 }
{
    let known = literal(g, node.right);
    let constant = evaluated(node.ty, node.op, literal(g, node.left), known);
    match constant.or_else(|| shift_plan(g, node, known)) {
        Some(plan) => First::Do(plan),
        None => equality_first(g, node),
    }
}

#[tactic(auto, unfolding(crate::specs::Binary::binary_first))]
pub fn binary_first(g: &Region, node: BinaryNode) -> First
    ensures { first_of result ≡ binary_first g.now node.ty node.op node.left.0 node.right.0 }
{
    let BinaryNode {
        ty,
        op,
        left,
        right,
    } = node;
    if is_swapped(op, literal(g, left), literal(g, right)) {
        return First::Do(Plan::Binary(right, left, ty, op));
    }
    open_first(g, node)
}
