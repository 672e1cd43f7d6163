// The plans of slice and concat.
ghost use Rattle.std.specs.Prelude.{◌≡◌, ◌<◌};
ghost use Rattle.range.specs.Interval.{interval_of};
ghost use Rattle.word.specs.Value.{val, number_of};
ghost use Rattle.graph.specs.Node.{op_of};
ghost use Rattle.plan.specs.Plan.{plan_of, decided_of, first_of};
ghost use Rattle.bitfield.specs.Bitfield.{field_of};
ghost use Rattle.plan_slice.specs.Slice.{lowered, bounded_plan, new_slice, slice_concat, slice_operation, slice_part, slice_plan, slice_open, slice_first, concat_plan, joined, maybe_cut_of, cut_of, adjacent, joined_plan, field_plan, concat_field, concat_open, concat_first};

use crate::Cut;
use bitfield::bits::is_above;
use bitfield::fields::fold_bitfield_concat;
use bitfield::{Concat, Field, Masked};
use evaluate::Binary;
use graph::layout::Region;
use graph::read::{literal, operation_at, range_at, type_at};
use graph::{NodeId, Operation};
use plan::{Attempt, First, Plan, Rest};
use range::typed::type_range;
use range::{Range, ScalarType};
use word::Word;

// The value from the offset up, 0 from offset 128 on.
#[tactic(auto, unfolding(word::specs::Value::val))]
fn lowered(value: Word, offset: u64) -> Word
    ensures { val result ≡ lowered (val value) offset }
{
    value.unbounded_shr(offset.min(128) as u32)
}

// A range that is not negative may say that the bits are 0, or at offset 0 that the value fits.
#[tactic(auto, using(graph::proofs::Tests::zero_test), unfolding(word::specs::Value::val))]
fn bounded_plan(range: Option<Range>, value: NodeId, offset: u64, width: u16) -> Option<Plan>
    ensures { decided_of result ≡ bounded_plan (interval_of range) value.0 offset width }
{
    let bounds = range?;
    if !bounds.is_nonnegative() {
        return None;
    }
    let ty = ScalarType::Bits(width);
    if lowered(bounds.max.as_word(), offset).is_zero() {
        return Some(Plan::Constant(Word::ZERO, ty));
    }
    if offset == 0 && bounds.is_in_bits(width) {
        return Some(Plan::Identity(value, ty));
    }
    None
}

fn new_slice(value: NodeId, offset: u16, width: u16) -> Plan
    ensures { plan_of result ≡ new_slice value.0 offset width }
{
    let ty = ScalarType::Bits(width);
    let operation = Operation::Slice {
        value,
        offset,
        width,
    };
    Plan::Add(type_range(ty), operation, ty)
}

// A slice of a concat: of its high part, of its low part, or of both.
fn slice_concat(high: NodeId, low: NodeId, low_width: u16, offset: u16, width: u16) -> Plan
    ensures { plan_of result ≡ slice_concat high.0 low.0 low_width offset width }
{
    if low_width <= offset {
        return Plan::Slice(high, u64::from(offset - low_width), width);
    }
    if u64::from(offset) + u64::from(width) <= u64::from(low_width) {
        return Plan::Slice(low, u64::from(offset), width);
    }
    let lower_width = low_width - offset;
    Plan::SplitConcat(
        low,
        high,
        u64::from(offset),
        lower_width,
        width - lower_width,
        width,
    )
}

fn slice_operation(operation: Operation, value: NodeId, offset: u16, width: u16) -> Plan
    ensures { plan_of result ≡ slice_operation (op_of operation) value.0 offset width }
{
    match operation {
        Operation::Slice {
            value: source,
            offset: base,
            width: source_width,
        } if u64::from(offset) + u64::from(width) <= u64::from(source_width) => {
            Plan::Slice(source, u64::from(base) + u64::from(offset), width)
        }
        Operation::Concat {
            high,
            low,
            low_width,
        } => slice_concat(high, low, low_width, offset, width),
        _ => new_slice(value, offset, width),
    }
}

// A slice that its range does not decide.
#[tactic(auto, unfolding(word::specs::Value::val))]
fn slice_part(g: &Region, value: NodeId, offset: u64, width: u16) -> Plan
    ensures { plan_of result ≡ slice_part g.now value.0 offset width }
{
    let ty = type_at(g, value);
    if 128 <= offset || is_above(ty, offset) {
        return Plan::Constant(Word::ZERO, ScalarType::Bits(width));
    }
    if offset == 0 && ty == ScalarType::Bits(width) {
        return Plan::Give(value);
    }
    slice_operation(operation_at(g, value), value, offset as u16, width)
}

// slice after modular.
#[tactic(auto, unfolding(crate::specs::Slice::slice_plan))]
pub fn slice_plan(g: &Region, value: NodeId, offset: u64, width: u16) -> Plan
    ensures { plan_of result ≡ slice_plan g.now value.0 offset width }
{
    let bounded = bounded_plan(range_at(g, value), value, offset, width);
    bounded.unwrap_or_else(|| slice_part(g, value, offset, width))
}

fn slice_open(g: &Region, value: NodeId, offset: u64, width: u16) -> First
    ensures { first_of result ≡ slice_open g.now value.0 offset width }
{
    if offset == 0 {
        return First::Try(
            Attempt::Modular(value, width),
            Rest::Slice(value, offset, width),
        );
    }
    First::Do(slice_plan(g, value, offset, width))
}

#[tactic(auto, unfolding(crate::specs::Slice::slice_first))]
pub fn slice_first(g: &Region, value: NodeId, offset: u64, width: u16) -> First
    ensures { first_of result ≡ slice_first g.now value.0 offset width }
{
    // A match, as in the three of concat: `map_or_else` copies what is handed back, at three instructions a call.
    match literal(g, value) {
        Some(constant) => First::Do(Plan::Constant(
            lowered(constant, offset),
            ScalarType::Bits(width),
        )),
        None => slice_open(g, value, offset, width),
    }
}

// concat after the bitfield fold: a node.
#[tactic(auto, unfolding(crate::specs::Slice::concat_plan))]
pub fn concat_plan(concat: Concat) -> Plan
    ensures { plan_of result ≡ concat_plan concat.high.0 concat.low.0 concat.low_width concat.width }
{
    let ty = ScalarType::Bits(concat.width);
    let operation = Operation::Concat {
        high: concat.high,
        low: concat.low,
        low_width: concat.low_width,
    };
    Plan::Add(type_range(ty), operation, ty)
}

// The constants of both parts side by side.
#[tactic(auto, using(evaluate::proofs::Shifts::unbounded_left))]
fn joined(high: Word, low: Word, low_width: u16) -> Word
    ensures { val result ≡ joined (val high) (val low) low_width }
{
    high.unbounded_shl(u32::from(low_width)) | low
}

fn joined_plan(high: Option<Word>, low: Option<Word>, low_width: u16, width: u16) -> Option<Plan>
    ensures { decided_of result ≡ joined_plan (number_of high) (number_of low) low_width width }
{
    Some(Plan::Constant(joined(high?, low?, low_width), ScalarType::Bits(width)))
}

fn cut_of(operation: Operation) -> Option<Cut>
    ensures { maybe_cut_of result ≡ cut_of (op_of operation) }
{
    let Operation::Slice { value, offset, .. } = operation else {
        return None;
    };
    Some(Cut { value, offset })
}

// Two slices side by side of one node are one slice.
fn adjacent(high: Operation, low: Operation, low_width: u16, width: u16) -> Option<Plan>
    ensures { decided_of result ≡ adjacent (cut_of (op_of high)) (cut_of (op_of low)) low_width width }
{
    let upper = cut_of(high)?;
    let lower = cut_of(low)?;
    let offset = u64::from(lower.offset);
    if upper.value == lower.value && u64::from(upper.offset) == offset + u64::from(low_width) {
        return Some(Plan::Slice(upper.value, offset, width));
    }
    None
}

// A concat of one node's own bits and of constants: And keeps those, Or sets the others.
fn field_plan(g: &Region, concat: Concat, field: Field) -> First
    ensures { first_of result ≡ field_plan g.now concat.high.0 concat.low.0 concat.low_width concat.width (field_of field) }
{
    let Concat {
        high,
        low,
        low_width,
        width,
    } = concat;
    let ty = ScalarType::Bits(width);
    let Some(base) = field.base else {
        return First::Do(Plan::Constant(field.literal, ty));
    };
    if type_at(g, base) != ty {
        return First::Do(concat_plan(concat));
    }
    let masked = Masked {
        ty,
        base,
        mask: field.keep,
        result: ty,
        op: Binary::Or,
        literal: field.literal,
    };
    First::Try(
        Attempt::Masked(masked),
        Rest::Concat(high, low, low_width, width),
    )
}

fn concat_field(g: &Region, concat: Concat) -> First
    ensures { first_of result ≡ concat_field g.now concat.high.0 concat.low.0 concat.low_width concat.width }
{
    match fold_bitfield_concat(g, concat) {
        Some(field) => field_plan(g, concat, field),
        None => First::Do(concat_plan(concat)),
    }
}

fn concat_open(g: &Region, concat: Concat) -> First
    ensures { first_of result ≡ concat_open g.now concat.high.0 concat.low.0 concat.low_width concat.width }
{
    let high = operation_at(g, concat.high);
    let low = operation_at(g, concat.low);
    match adjacent(high, low, concat.low_width, concat.width) {
        Some(plan) => First::Do(plan),
        None => concat_field(g, concat),
    }
}

#[tactic(auto, unfolding(crate::specs::Slice::concat_first))]
pub fn concat_first(g: &Region, concat: Concat) -> First
    ensures { first_of result ≡ concat_first g.now concat.high.0 concat.low.0 concat.low_width concat.width }
{
    let Concat {
        high,
        low,
        low_width,
        width,
    } = concat;
    if width == low_width {
        return First::Do(Plan::Slice(low, 0, width));
    }
    if low_width == 0 {
        return First::Do(Plan::Slice(high, 0, width));
    }
    match joined_plan(literal(g, high), literal(g, low), low_width, width) {
        Some(plan) => First::Do(plan),
        None => concat_open(g, concat),
    }
}
