// Through a sum with a constant to its base (assume.rs 40 to 78).
ghost use Rattle.std.specs.Prelude.{◌≡◌};
ghost use Rattle.word.specs.Value.{val, int_of, value_of};
ghost use Rattle.range.specs.Interval.{bounds_of, interval_of};
ghost use Rattle.fold.specs.Shape.{one_by_constant_of};
ghost use Rattle.assume.specs.Refine.{undone_bits, ordered, undone_integer, undone, next_of, base_by, base_of};

use crate::Next;
use evaluate::Binary;
use evaluate::pattern::low_bits;
use fold::ByConstant;
use fold::operator::is_sum;
use fold::shape::{by_constant_at, origin};
use graph::NodeId;
use graph::layout::Region;
use graph::read::type_at;
use range::arithmetic::between;
use range::{Range, ScalarType};
use word::{Signed, Word};

// The x of Bits(width) with x + offset, or x - offset, equal to the value.
fn undone_bits(width: u16, op: Binary, offset: Word, value: Signed) -> Word
    ensures { val result ≡ undone_bits width op (val offset) (int_of value) }
{
    let pattern = value.as_word();
    let undone = if op == Binary::Sub {
        pattern.wrapping_add(offset)
    } else {
        pattern.wrapping_sub(offset)
    };
    low_bits(undone, width)
}

// From one to the other, where they come in this order.
fn ordered(a: Word, b: Word) -> Option<Range>
    ensures { interval_of result ≡ ordered (val a) (val b) }
{
    (a <= b).then(|| Range::of_patterns(a, b))
}

fn undone_integer(op: Binary, offset: Signed, value: Signed) -> Option<Signed>
    ensures { value_of result ≡ undone_integer op (int_of offset) (int_of value) }
{
    if op == Binary::Sub {
        value.checked_add(offset)
    } else {
        value.checked_sub(offset)
    }
}

// The range of x, where x + offset or x - offset lies in the range.
#[tactic(auto, using(crate::proofs::Laws::not_sum), unfolding(crate::specs::Refine::undone))]
fn undone(ty: ScalarType, op: Binary, offset: Word, range: Range) -> Option<Range>
    ensures { interval_of result ≡ undone ty op (val offset) (bounds_of range) }
{
    if !is_sum(op) {
        return None;
    }
    match ty {
        ScalarType::Bits(width) if width < 128 => ordered(
            undone_bits(width, op, offset, range.min),
            undone_bits(width, op, offset, range.max),
        ),
        ScalarType::Integer => {
            let signed = offset.as_signed();
            between(
                undone_integer(op, signed, range.min),
                undone_integer(op, signed, range.max),
            )
        }
        _ => None,
    }
}

// The base of an operation by a constant, if it has the type.
fn base_by(g: &Region, ty: ScalarType, range: Range, shape: ByConstant) -> Option<Next>
    ensures { next_of result ≡ base_by g.now ty (bounds_of range) (one_by_constant_of shape) }
{
    let ByConstant { op, base, value } = shape;
    if type_at(g, base) != ty {
        return None;
    }
    let range = undone(ty, op, value, range)?;
    Some(Next { node: base, range })
}

// What follows for the base, if the node is, through its Refines, a sum with a constant.
#[tactic(auto, unfolding(crate::specs::Refine::base_of))]
pub fn base_of(g: &Region, node: NodeId, range: Range) -> Option<Next>
    ensures { next_of result ≡ base_of g.now node.0 (bounds_of range) }
{
    let shape = by_constant_at(g, origin(g, node))?;
    base_by(g, type_at(g, node), range, shape)
}
