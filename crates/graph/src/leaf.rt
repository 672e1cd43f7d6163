// Nodes without operands: constants, inputs and effects.
ghost use Rattle.std.specs.Prelude.{◌≡◌};
ghost use Rattle.word.specs.Value.{val};
ghost use Rattle.range.specs.Interval.{interval_of};
ghost use Rattle.graph.specs.Insert.{made, built_of, constant, constant_interval, input, effect};

use crate::insert::insert;
use crate::layout::Region;
use crate::{EffectId, InputId, NodeId, Operation, Unbuilt};
use evaluate::pattern::reduced;
use range::typed::type_range;
use range::{Range, ScalarType};
use word::Word;

// The range of a constant: itself, but none for Bits above 2^127 - 1.
fn constant_range(ty: ScalarType, value: Word) -> Option<Range>
    ensures { interval_of result ≡ constant_interval ty (val value) }
{
    let signed = value.as_signed();
    match ty {
        ScalarType::Bits(_) if signed.is_negative() => None,
        _ => Some(Range::singleton(signed)),
    }
}

#[tactic(auto, unfolding(crate::specs::Insert::constant))]
pub fn constant(g: &mut Region, ty: ScalarType, value: Word) -> Result<NodeId, Unbuilt>
    ensures { made (built_of result) g.new ≡ constant g.old ty (val value) }
{
    let low = reduced(ty, value);
    insert(g, ty, constant_range(ty, low), Operation::Constant(low))
}

#[tactic(auto, unfolding(crate::specs::Insert::input))]
pub fn input(
    g: &mut Region,
    id: InputId,
    ty: ScalarType,
    range: Option<Range>,
) -> Result<NodeId, Unbuilt>
    ensures { made (built_of result) g.new ≡ input g.old id.0 ty (interval_of range) }
{
    let range = range.or_else(|| type_range(ty));
    insert(g, ty, range, Operation::Input(id))
}

#[tactic(auto, unfolding(crate::specs::Insert::effect))]
pub fn effect(g: &mut Region, id: EffectId, ty: ScalarType) -> Result<NodeId, Unbuilt>
    ensures { made (built_of result) g.new ≡ effect g.old id.0 ty }
{
    insert(g, ty, type_range(ty), Operation::Effect(id))
}
