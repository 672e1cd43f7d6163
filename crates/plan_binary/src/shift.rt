// Shifts by a constant.
ghost use Rattle.std.specs.Prelude.{◌≡◌, ◌<◌};
ghost use Rattle.word.specs.Value.{val, number_of};
ghost use Rattle.fold.specs.Shape.{one_by_constant_of};
ghost use Rattle.plan.specs.Plan.{plan_of, decided_of};
ghost use Rattle.plan_binary.specs.Binary.{is_shifted_out, back_shift, shift_of_shift, shift_by, shift_plan};

use crate::BinaryNode;
use evaluate::Binary;
use fold::ByConstant;
use fold::operator::is_folded_shift;
use fold::shape::{by_constant_at, has_no_bits_above, origin};
use graph::NodeId;
use graph::layout::Region;
use graph::read::type_at;
use plan::Plan;
use range::ScalarType;
use word::Word;

// Is the result 0? A shift right by the width is, if the operand has no bits from there on.
#[tactic(auto, using(word::proofs::Compared::le_word))]
fn is_shifted_out(op: Binary, width: u16, count: Word, narrow: bool) -> bool
    ensures { result ≡ is_shifted_out op width (val count) narrow }
{
    Word::from(128) <= count
        || (Word::from(u64::from(width)) <= count && (op == Binary::ShiftLeft || narrow))
}

// Right after left: the bits that stay, or these shifted left by the rest. Both counts are below the width.
#[tactic(auto, using(word::proofs::Compared::le_word), unfolding(word::specs::Value::val))]
fn back_shift(width: u16, count: Word, shape: ByConstant) -> Plan
    requires { (val count < width) × (val shape.value < width) }
    ensures { plan_of result ≡ back_shift width (val count) (one_by_constant_of shape) }
{
    let base = shape.base;
    let first = shape.value;
    let ty = ScalarType::Bits(width);
    if first <= count {
        return Plan::SliceIdentity(base, count.lo - first.lo, width - count.lo as u16, ty);
    }
    let rest = Word::from(first.lo - count.lo);
    Plan::SliceShift(base, rest, width - first.lo as u16, ty)
}

// A shift of a shift left, both below the width.
#[tactic(auto, using(word::proofs::Compared::le_word))]
fn shift_of_shift(op: Binary, width: u16, count: Word, shape: ByConstant) -> Option<Plan>
    ensures { decided_of result ≡ shift_of_shift op width (val count) (one_by_constant_of shape) }
{
    let first = shape.value;
    let end = Word::from(u64::from(width));
    if end <= first || end <= count || shape.op != Binary::ShiftLeft {
        return None;
    }
    if op == Binary::ShiftRight {
        return Some(back_shift(width, count, shape));
    }
    let sum = first.wrapping_add(count);
    let ty = ScalarType::Bits(width);
    Some(Plan::ConstantBinary(sum, shape.base, ScalarType::Integer, ty, op))
}

#[tactic(auto, unfolding(word::specs::Value::val))]
fn shift_by(g: &Region, op: Binary, width: u16, left: NodeId, count: Word) -> Option<Plan>
    ensures { decided_of result ≡ shift_by g.now op width left.0 (val count) }
{
    let ty = ScalarType::Bits(width);
    let narrow = has_no_bits_above(g, left, width);
    if is_shifted_out(op, width, count, narrow) {
        return Some(Plan::Constant(Word::ZERO, ty));
    }
    let source = origin(g, left);
    if type_at(g, source) != ty {
        return None;
    }
    shift_of_shift(op, width, count, by_constant_at(g, source)?)
}

// What a shift in Bits by a constant comes to.
pub(crate) fn shift_plan(g: &Region, node: BinaryNode, known: Option<Word>) -> Option<Plan>
    ensures { decided_of result ≡ shift_plan g.now node.ty node.op node.left.0 (number_of known) }
{
    let ScalarType::Bits(width) = node.ty else {
        return None;
    };
    if !is_folded_shift(node.op) {
        return None;
    }
    shift_by(g, node.op, width, node.left, known?)
}
