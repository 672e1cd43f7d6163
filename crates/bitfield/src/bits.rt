// One bit of a node, followed down to a constant or to the node that it comes from.
ghost use Rattle.std.specs.Prelude.{◌≡◌, ◌<◌};
ghost use Rattle.word.specs.Value.{val, number_of};
ghost use Rattle.word.specs.Option.{given};
ghost use Rattle.graph.specs.Node.{op_of};
ghost use Rattle.bitfield.specs.Bitfield.{step_of, maybe_bit_of, has_bit, above, masked_bit, unary_bit, bit_of, bit_step, bit_at, negated_bit, here, source};
ghost use Rattle.bitfield.specs.Turns.{once_more, turned_by};

use crate::{Bit, BitStep, Turns};
use evaluate::{Binary, Unary};
use graph::layout::Region;
use graph::read::{literal, operation_at, type_at};
use graph::{NodeId, Operation};
use range::ScalarType;
use word::Word;

// The most steps.
pub const DEPTH: u64 = 64;

fn has_bit(value: Word, index: u16) -> bool
    ensures { result ≡ has_bit (val value) index }
{
    value.bit(u32::from(index)) == 1
}

// Is the bit above the type's width?
pub fn is_above(ty: ScalarType, index: u64) -> bool
    ensures { result ≡ above ty index }
{
    matches!(ty, ScalarType::Bits(width) if u64::from(width) <= index)
}

fn own(id: NodeId, index: u16) -> BitStep
    ensures { step_of result ≡ here (source id.0 index) }
{
    BitStep::Here(Bit::Source(id, u64::from(index)))
}

// A bit of an And, Or or Xor with a constant whose bit is set or not.
fn masked_bit(op: Binary, id: NodeId, set: bool, base: NodeId, index: u16) -> BitStep
    ensures { step_of result ≡ masked_bit op id.0 set base.0 index }
{
    match (op, set) {
        (Binary::And, false) => BitStep::Here(Bit::Known(false)),
        (Binary::Or, true) => BitStep::Here(Bit::Known(true)),
        (Binary::Xor, true) => BitStep::Flipped(base, u64::from(index)),
        (Binary::And | Binary::Or | Binary::Xor, _) => BitStep::From(base, u64::from(index)),
        _ => own(id, index),
    }
}

// Only a truncation hands a bit on.
fn unary_bit(op: Unary, id: NodeId, value: NodeId, index: u16) -> BitStep
    ensures { step_of result ≡ unary_bit op id.0 value.0 index }
{
    match op {
        Unary::Truncate(width) if index < width => BitStep::From(value, u64::from(index)),
        Unary::Truncate(_) => BitStep::Here(Bit::Known(false)),
        _ => own(id, index),
    }
}

// A bit of a binary operation; `mask` is its right operand's constant.
fn binary_bit(op: Binary, id: NodeId, mask: Option<Word>, base: NodeId, index: u16) -> BitStep
    ensures { step_of result ≡ given (number_of mask) (λ c. masked_bit op id.0 (has_bit c index) base.0 index) (here (source id.0 index)) }
{
    // A match, since this is asked for each bit: `map_or_else` would copy what is handed back.
    match mask {
        Some(constant) => masked_bit(op, id, has_bit(constant, index), base, index),
        None => own(id, index),
    }
}

fn operation_bit(g: &Region, id: NodeId, index: u16, operation: Operation) -> BitStep
    ensures { step_of result ≡ bit_of g.now id.0 index (op_of operation) }
{
    match operation {
        Operation::Constant(value) => BitStep::Here(Bit::Known(has_bit(value, index))),
        Operation::Refine(value) => BitStep::From(value, u64::from(index)),
        Operation::Slice { width, .. } if width <= index => BitStep::Here(Bit::Known(false)),
        Operation::Slice { value, offset, .. } => BitStep::From(
            value,
            u64::from(offset) + u64::from(index),
        ),
        Operation::Concat { low, low_width, .. } if index < low_width => BitStep::From(
            low,
            u64::from(index),
        ),
        Operation::Concat {
            high,
            low_width,
            ..
        } => BitStep::From(high, u64::from(index - low_width)),
        Operation::Unary(op, value) => unary_bit(op, id, value, index),
        Operation::Binary(op, base, right) => binary_bit(op, id, literal(g, right), base, index),
        _ => own(id, index),
    }
}

// Where a bit of a node comes from. Past bit 127 and past the node's width it is 0.
#[tactic(auto, unfolding(crate::specs::Bitfield::bit_step))]
fn bit_step(g: &Region, id: NodeId, index: u64) -> BitStep
    ensures { step_of result ≡ bit_step g.now id.0 index }
{
    if 128 <= index || is_above(type_at(g, id), index) {
        return BitStep::Here(Bit::Known(false));
    }
    operation_bit(g, id, index as u16, operation_at(g, id))
}

// A known bit turned over; what is not known comes to None.
fn negated_bit(bit: Option<Bit>) -> Option<Bit>
    ensures { maybe_bit_of result ≡ negated_bit (maybe_bit_of bit) }
{
    match bit? {
        Bit::Known(value) => Some(Bit::Known(!value)),
        Bit::Source(_, _) => None,
    }
}

// One turn more.
fn once_more(turns: Turns) -> Turns
    ensures { result ≡ once_more turns }
{
    match turns {
        Turns::Odd => Turns::Even,
        _ => Turns::Odd,
    }
}

// A bit after these turns.
fn turned_by(turns: Turns, bit: Option<Bit>) -> Option<Bit>
    ensures { maybe_bit_of result ≡ turned_by turns (maybe_bit_of bit) }
{
    match turns {
        Turns::Never => bit,
        Turns::Odd => negated_bit(bit),
        Turns::Even => negated_bit(negated_bit(bit)),
    }
}

// A bit of a node, by at most `left` steps.
pub fn bit(g: &Region, id: NodeId, index: u64, left: u64) -> Option<Bit>
    ensures { maybe_bit_of result ≡ bit_at g.now left id.0 index }
{
    let mut node = id;
    let mut place = index;
    let mut turns = Turns::Never;
    for _ in 0..left {
        match bit_step(g, node, place) {
            BitStep::Here(found) => return turned_by(turns, Some(found)),
            BitStep::From(source, at) => {
                node = source;
                place = at;
            }
            BitStep::Flipped(source, at) => {
                node = source;
                place = at;
                turns = once_more(turns);
            }
        }
    }
    None
}
