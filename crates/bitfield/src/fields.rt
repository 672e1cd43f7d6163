// The bits of a concat, where each is known or one node's own at its place.
ghost use Rattle.std.specs.Prelude.{cond, ◌&&◌, ◌≡◌, eqb};
ghost use Rattle.std.specs.Int.Bits.{bit_or};
ghost use Rattle.word.specs.Value.{val};
ghost use Rattle.fold.specs.Shape.{id_of};
ghost use Rattle.bitfield.specs.Bitfield.{maybe_bit_of, maybe_field_of, power, same_base, concat_bit, fold_bitfield_concat, no_bits, field_from};
ghost use Rattle.bitfield.specs.Early.{misplaced, ruled_out};

use crate::bits::{DEPTH, bit};
use crate::{Bit, Concat, Field};
use fold::shape::has_no_bits_above;
use graph::NodeId;
use graph::layout::Region;
use word::Word;

// The pattern in which one bit is set.
#[tactic(auto, unfolding(word::specs::Value::val))]
fn power(index: u16) -> Word
    ensures { val result ≡ power index }
{
    Word::ONE.unbounded_shl(u32::from(index))
}

// Is there no node yet, or this one?
fn is_base(base: Option<NodeId>, id: NodeId) -> bool
    ensures { result ≡ same_base (id_of base) id.0 }
{
    base.is_none_or(|other| other == id)
}

// A literal with this bit at its place.
fn with_known(literal: Word, index: u16, value: bool) -> Word
    ensures { val result ≡ cond value (bit_or (val literal) (power index)) (val literal) }
{
    if value {
        literal | power(index)
    } else {
        literal
    }
}

// Is it the same bit of the one node?
fn is_own(base: Option<NodeId>, index: u16, id: NodeId, source: u64) -> bool
    ensures { result ≡ (eqb source index && same_base (id_of base) id.0) }
{
    source == u64::from(index) && is_base(base, id)
}

fn concat_bit(g: &Region, concat: Concat, index: u16) -> Option<Bit>
    ensures { maybe_bit_of result ≡ concat_bit g.now concat.high.0 concat.low.0 concat.low_width index }
{
    if index < concat.low_width {
        bit(g, concat.low, u64::from(index), DEPTH)
    } else {
        bit(g, concat.high, u64::from(index - concat.low_width), DEPTH)
    }
}

fn all_bits(g: &Region, concat: Concat) -> Option<Field>
    ensures { maybe_field_of result ≡ field_from g.now concat.high.0 concat.low.0 concat.low_width 0 concat.width no_bits }
{
    let mut base = None;
    let mut keep = Word::ZERO;
    let mut literal = Word::ZERO;
    for index in 0..concat.width {
        match concat_bit(g, concat, index)? {
            Bit::Known(value) => literal = with_known(literal, index, value),
            Bit::Source(id, source) => {
                if !is_own(base, index, id, source) {
                    return None;
                }
                base = Some(id);
                keep = keep | power(index);
            }
        }
    }
    Some(Field {
        base,
        keep,
        literal,
    })
}

// Is it neither known nor a bit of a node at the same place?
fn is_misplaced(bit: Option<Bit>, index: u16) -> bool
    ensures { result ≡ misplaced (maybe_bit_of bit) index }
{
    bit.is_none_or(|found| matches!(found, Bit::Source(_, source) if source != u64::from(index)))
}

// Does the high part's first bit rule the fold out? It often does, so it is tested before the others.
fn is_ruled_out(g: &Region, concat: Concat) -> bool
    ensures { result ≡ ruled_out g.now concat.high.0 concat.low.0 concat.low_width concat.width }
{
    let first = concat.low_width;
    first < concat.width && is_misplaced(concat_bit(g, concat, first), first)
}

// The bits of a concat, if all are known or one node's own.
#[tactic(auto, unfolding(crate::specs::Bitfield::fold_bitfield_concat))]
pub fn fold_bitfield_concat(g: &Region, concat: Concat) -> Option<Field>
    ensures { maybe_field_of result ≡ fold_bitfield_concat g.now concat.high.0 concat.low.0 concat.low_width concat.width }
{
    if has_no_bits_above(g, concat.low, concat.low_width) && !is_ruled_out(g, concat) {
        all_bits(g, concat)
    } else {
        None
    }
}
