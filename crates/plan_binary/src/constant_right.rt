// Operations with a constant on the right.
ghost use Rattle.std.specs.Prelude.{◌≡◌};
ghost use Rattle.word.specs.Value.{val, number_of};
ghost use Rattle.word.specs.Option.{given};
ghost use Rattle.graph.specs.Node.{type_at};
ghost use Rattle.fold.specs.Shape.{one_by_constant_of};
ghost use Rattle.plan.specs.Plan.{plan_of, decided_of};
ghost use Rattle.plan_binary.specs.Binary.{zero_plan, ones_plan, right_plan, merged_plan, mask_of_mask, mask_plan, literal_plan, remainder_plan, sum_of_sum, sum_plan, offset_target, offset_compared, offset_typed, offset_plan};

use crate::BinaryNode;
use evaluate::Binary;
use evaluate::two_operands::binary_value;
use fold::ByConstant;
use fold::operator::{is_bitwise, is_equality, is_kept_by_zero, is_zero_by_zero};
use fold::shape::by_constant_at;
use graph::NodeId;
use graph::layout::Region;
use graph::read::type_at;
use plan::Plan;
use range::ScalarType;
use range::typed::mask;
use word::Word;

#[tactic(auto, unfolding(word::specs::Value::val))]
fn zero_plan(node: BinaryNode) -> Option<Plan>
    ensures { decided_of result ≡ zero_plan node.ty node.op node.left.0 }
{
    if is_kept_by_zero(node.op) {
        return Some(Plan::Identity(node.left, node.ty));
    }
    if is_zero_by_zero(node.op) {
        return Some(Plan::Constant(Word::ZERO, node.ty));
    }
    None
}

// All ones of the type on the right: And keeps, Or gives them.
#[tactic(auto, unfolding(word::specs::Value::val))]
fn ones_plan(node: BinaryNode, value: Word) -> Option<Plan>
    ensures { decided_of result ≡ ones_plan node.ty node.op node.left.0 node.right.0 (val value) }
{
    let BinaryNode {
        ty,
        op,
        left,
        right,
    } = node;
    match (ty, op) {
        (ScalarType::Bool, Binary::And) if value == Word::ONE => Some(Plan::Give(left)),
        (ScalarType::Bool, Binary::Or) if value == Word::ONE => Some(Plan::Give(right)),
        (ScalarType::Bits(width), Binary::And) if value == mask(width) => {
            Some(Plan::Identity(left, ty))
        }
        (ScalarType::Bits(width), Binary::Or) if value == mask(width) => {
            Some(Plan::Constant(value, ty))
        }
        _ => None,
    }
}

#[tactic(auto, using(graph::proofs::Tests::zero_test))]
fn right_plan(node: BinaryNode, value: Word) -> Option<Plan>
    ensures { decided_of result ≡ right_plan node.ty node.op node.left.0 node.right.0 (val value) }
{
    let ones = ones_plan(node, value);
    if value.is_zero() {
        return zero_plan(node).or(ones);
    }
    ones
}

// One operation by the constant of two.
fn merged_plan(ty: ScalarType, op: Binary, base: NodeId, value: Option<Word>) -> Plan
    ensures { plan_of result ≡ merged_plan ty op base.0 (number_of value) }
{
    value.map_or(
        Plan::None,
        |constant| Plan::ConstantBinary(constant, base, ty, ty, op),
    )
}

// An operation by a constant of an operation by a constant.
fn mask_of_mask(node: BinaryNode, value: Word, shape: ByConstant) -> Option<Plan>
    ensures { decided_of result ≡ mask_of_mask node.ty node.op node.right.0 (val value) (one_by_constant_of shape) }
{
    let BinaryNode { ty, op, right, .. } = node;
    if shape.op == op && is_bitwise(op) {
        let both = binary_value(op, ty, shape.value, value);
        return Some(merged_plan(ty, op, shape.base, both));
    }
    if shape.op == Binary::Or && op == Binary::And {
        return Some(Plan::AndOr(shape.base, right, shape.value & value, ty));
    }
    None
}

fn mask_plan(g: &Region, node: BinaryNode, value: Word) -> Option<Plan>
    ensures { decided_of result ≡ mask_plan g.now node.ty node.op node.left.0 node.right.0 (val value) }
{
    let ScalarType::Bits(_) = node.ty else {
        return None;
    };
    mask_of_mask(node, value, by_constant_at(g, node.left)?)
}

// What a constant on the right decides before the range is known.
pub(crate) fn literal_plan(g: &Region, node: BinaryNode, known: Option<Word>) -> Option<Plan>
    ensures { decided_of result ≡ literal_plan g.now node.ty node.op node.left.0 node.right.0 (number_of known) }
{
    let value = known?;
    right_plan(node, value).or_else(|| mask_plan(g, node, value))
}

// The remainder by a power of two is an And.
fn remainder_plan(node: BinaryNode, value: Word) -> Option<Plan>
    ensures { decided_of result ≡ remainder_plan node.ty node.op node.left.0 (val value) }
{
    if node.op == Binary::RemainderUnsigned && value.is_power_of_two() {
        let bits = value.wrapping_sub(Word::ONE);
        return Some(Plan::ConstantBinary(bits, node.left, node.ty, node.ty, Binary::And));
    }
    None
}

// Add of Add, and Sub of Sub, by the sum of their constants. Without a sum Sub of Sub stays.
fn sum_of_sum(ty: ScalarType, op: Binary, value: Word, shape: ByConstant) -> Option<Plan>
    ensures { decided_of result ≡ sum_of_sum ty op (val value) (one_by_constant_of shape) }
{
    let sum = binary_value(Binary::Add, ty, shape.value, value);
    match (op, shape.op) {
        (Binary::Add, Binary::Add) => Some(merged_plan(ty, op, shape.base, sum)),
        (Binary::Sub, Binary::Sub) => Some(Plan::ConstantBinary(sum?, shape.base, ty, ty, op)),
        _ => None,
    }
}

// A remainder or a sum by a constant.
pub(crate) fn sum_plan(g: &Region, node: BinaryNode, known: Option<Word>) -> Option<Plan>
    ensures { decided_of result ≡ given (number_of known) (sum_plan g.now node.ty node.op node.left.0) None }
{
    let value = known?;
    remainder_plan(node, value).or_else(|| sum_of_sum(
        node.ty,
        node.op,
        value,
        by_constant_at(g, node.left)?,
    ))
}

// The constant that the base of a sum is compared with.
fn offset_target(op: Binary, target: Word, offset: Word) -> Option<Word>
    ensures { number_of result ≡ offset_target op (val target) (val offset) }
{
    match op {
        Binary::Sub => Some(target.wrapping_add(offset)),
        Binary::Add => Some(target.wrapping_sub(offset)),
        _ => None,
    }
}

fn offset_compared(
    ty: ScalarType,
    op: Binary,
    width: u16,
    target: Word,
    shape: ByConstant,
) -> Option<Plan>
    ensures { decided_of result ≡ offset_compared ty op width (val target) (one_by_constant_of shape) }
{
    let value = offset_target(shape.op, target, shape.value)?;
    Some(Plan::ConstantBinary(value, shape.base, ScalarType::Bits(width), ty, op))
}

#[tactic(auto, using(word::proofs::Compared::lt_word))]
fn offset_typed(g: &Region, node: BinaryNode, target: Word) -> Option<Plan>
    ensures { decided_of result ≡ offset_typed g.now node.ty node.op node.left.0 (val target) (type_at g.now node.left.0) }
{
    let ScalarType::Bits(width) = type_at(g, node.left) else {
        return None;
    };
    if mask(width) < target {
        return None;
    }
    let shape = by_constant_at(g, node.left)?;
    offset_compared(node.ty, node.op, width, target, shape)
}

// A comparison of a sum with a constant is one of its base.
pub(crate) fn offset_plan(g: &Region, node: BinaryNode, known: Option<Word>) -> Option<Plan>
    ensures { decided_of result ≡ offset_plan g.now node.ty node.op node.left.0 (number_of known) }
{
    if !is_equality(node.op) {
        return None;
    }
    offset_typed(g, node, known?)
}
