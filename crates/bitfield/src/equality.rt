// A base compared with itself under a mask.
ghost use Rattle.std.specs.Prelude.{◌≡◌, ltb};
ghost use Rattle.word.specs.Value.{val};
ghost use Rattle.evaluate.specs.Operator.{BINARY};
ghost use Rattle.graph.specs.Layout.{OPERATION, word_at};
ghost use Rattle.range.specs.declared.ScalarType.TheVariants as ty;
ghost use Rattle.fold.specs.Shape.{one_by_constant_of};
ghost use Rattle.bitfield.specs.Bitfield.{mask_of, maybe_update_of, one_update_of, update_at, pair_fold_of, keeps, changed_bits, fold_update, fold_typed, fold_pair, maybe_mask_of, fold_masked_comparison};

use crate::{Masked, PairFold, Update};
use evaluate::Binary;
use evaluate::code::BINARY;
use fold::ByConstant;
use fold::shape::by_constant_at;
use graph::layout::{OPERATION, Region, word_at};
use graph::read::{literal, operation_at, type_at};
use graph::{NodeId, Operation};
use range::ScalarType;
use range::typed::mask;
use word::Word;

// An Or needs a constant, without which the fold ends; what is no Or sets nothing.
#[tactic(auto, unfolding(crate::specs::Bitfield::update_at, word::specs::Value::val))]
fn update_at(g: &Region, id: NodeId) -> Option<Update>
    ensures { maybe_update_of result ≡ update_at g.now id.0 }
{
    match operation_at(g, id) {
        Operation::Binary(Binary::Or, left, right) => Some(Update {
            preserved: left,
            literal: literal(g, right)?,
        }),
        _ => Some(Update {
            preserved: id,
            literal: Word::ZERO,
        }),
    }
}

// Is it base And keep, with no bit both kept and set?
#[tactic(auto, using(word::proofs::Compared::le_word))]
fn keeps(base: NodeId, width: u16, value: Word, shape: ByConstant) -> bool
    ensures { result ≡ keeps base.0 width (val value) (one_by_constant_of shape) }
{
    shape.op == Binary::And
        && shape.base == base
        && (value & shape.value).is_zero()
        && value <= mask(width)
}

// The comparison of the bits that are not kept with the literal.
fn changed_bits(op: Binary, base: NodeId, width: u16, value: Word, shape: ByConstant) -> Masked
    ensures { mask_of result ≡ changed_bits op base.0 width (val value) (one_by_constant_of shape) }
{
    Masked {
        ty: ScalarType::Bits(width),
        base,
        mask: !shape.value & mask(width),
        result: ScalarType::Bool,
        op,
        literal: value,
    }
}

fn fold_update(g: &Region, op: Binary, base: NodeId, width: u16, update: Update) -> PairFold
    ensures { pair_fold_of result ≡ fold_update g.now op base.0 width (one_update_of update) }
{
    let Update { preserved, literal } = update;
    match by_constant_at(g, preserved) {
        Some(shape) if keeps(base, width, literal, shape) => {
            Some(Some(changed_bits(op, base, width, literal, shape)))
        }
        _ => None,
    }
}

fn fold_pair_of_bits(g: &Region, op: Binary, base: NodeId, updated: NodeId, width: u16) -> PairFold
    ensures { pair_fold_of result ≡ fold_typed g.now op base.0 updated.0 (ty.Bits width) }
{
    if type_at(g, updated) != ScalarType::Bits(width) {
        return None;
    }
    match update_at(g, updated) {
        Some(update) => fold_update(g, op, base, width, update),
        None => Some(None),
    }
}

// One pair of base and update.
#[tactic(auto, unfolding(crate::specs::Bitfield::fold_pair))]
fn fold_pair(g: &Region, op: Binary, base: NodeId, updated: NodeId) -> PairFold
    ensures { pair_fold_of result ≡ fold_pair g.now op base.0 updated.0 }
{
    match type_at(g, base) {
        ScalarType::Bits(width) => fold_pair_of_bits(g, op, base, updated, width),
        _ => None,
    }
}

fn is_not_binary(g: &Region, id: NodeId) -> bool
    ensures { result ≡ ltb (word_at g.now id.0 OPERATION) BINARY }
{
    word_at(g, id.0, OPERATION) < BINARY
}

// The masked comparison of two nodes: the left one as base, or where it says so the right one. Where neither is a binary operation there is none.
#[tactic(auto, unfolding(crate::specs::Bitfield::fold_masked_comparison))]
pub fn fold_masked_comparison(g: &Region, op: Binary, left: NodeId, right: NodeId) -> Option<Masked>
    ensures { maybe_mask_of result ≡ fold_masked_comparison g.now op left.0 right.0 }
{
    if is_not_binary(g, left) && is_not_binary(g, right) {
        return None;
    }
    fold_pair(g, op, left, right).or_else(|| fold_pair(g, op, right, left))?
}
