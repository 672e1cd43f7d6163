// The requests by name, each in two tiers: `.._in_graph` is for a caller that knows the region to be a graph, as `call_in_graph` says.
// No crate here calls the nine of that tier: they are for users of the Rust library who own a region and have changed it by these calls alone, as
// docs/CALLS.md says of what C calls, and beside each stands its twin without a `requires`.
ghost use Rattle.std.specs.Prelude.{true, ◌≡◌};
ghost use Rattle.word.specs.Value.{val};
ghost use Rattle.range.specs.Interval.{interval_of};
ghost use Rattle.graph.specs.WellFormed.{is_graph};
ghost use Rattle.native.specs.Call.{answer_of, called};
ghost use Rattle.request.specs.Request as asked;
ghost use Rattle.native.specs.Perform.{request_in_graph, request_call};

use crate::Answer;
use crate::perform::{call, call_in_graph};
use answer::Refusal;
use evaluate::{Binary, Unary};
use graph::layout::Region;
use graph::{EffectId, InputId, NodeId};
use range::{Range, ScalarType};
use request::Request;
use word::Word;

pub fn constant_in_graph(g: &mut Region, ty: ScalarType, value: Word) -> Result<Answer, Refusal>
    requires { is_graph g.old ≡ true }
    ensures { called (answer_of result) g.new ≡ request_in_graph g.old (asked.constant ty (val value)) }
{
    call_in_graph(g, Request::Constant(value, ty))
}

pub fn constant(g: &mut [u64], ty: ScalarType, value: Word) -> Result<Answer, Refusal>
    ensures { called (answer_of result) g.new ≡ request_call g.old (asked.constant ty (val value)) }
{
    call(g, Request::Constant(value, ty))
}

pub fn input_in_graph(
    g: &mut Region,
    id: InputId,
    ty: ScalarType,
    range: Option<Range>,
) -> Result<Answer, Refusal>
    requires { is_graph g.old ≡ true }
    ensures { called (answer_of result) g.new ≡ request_in_graph g.old (asked.input id.0 ty (interval_of range)) }
{
    call_in_graph(g, Request::Input(id, range, ty))
}

pub fn input(
    g: &mut [u64],
    id: InputId,
    ty: ScalarType,
    range: Option<Range>,
) -> Result<Answer, Refusal>
    ensures { called (answer_of result) g.new ≡ request_call g.old (asked.input id.0 ty (interval_of range)) }
{
    call(g, Request::Input(id, range, ty))
}

pub fn effect_in_graph(g: &mut Region, id: EffectId, ty: ScalarType) -> Result<Answer, Refusal>
    requires { is_graph g.old ≡ true }
    ensures { called (answer_of result) g.new ≡ request_in_graph g.old (asked.effect id.0 ty) }
{
    call_in_graph(g, Request::Effect(id, ty))
}

pub fn effect(g: &mut [u64], id: EffectId, ty: ScalarType) -> Result<Answer, Refusal>
    ensures { called (answer_of result) g.new ≡ request_call g.old (asked.effect id.0 ty) }
{
    call(g, Request::Effect(id, ty))
}

pub fn unary_in_graph(
    g: &mut Region,
    ty: ScalarType,
    op: Unary,
    value: NodeId,
) -> Result<Answer, Refusal>
    requires { is_graph g.old ≡ true }
    ensures { called (answer_of result) g.new ≡ request_in_graph g.old (asked.unary ty op value.0) }
{
    call_in_graph(g, Request::Unary(value, ty, op))
}

pub fn unary(g: &mut [u64], ty: ScalarType, op: Unary, value: NodeId) -> Result<Answer, Refusal>
    ensures { called (answer_of result) g.new ≡ request_call g.old (asked.unary ty op value.0) }
{
    call(g, Request::Unary(value, ty, op))
}

pub fn binary_in_graph(
    g: &mut Region,
    ty: ScalarType,
    op: Binary,
    left: NodeId,
    right: NodeId,
) -> Result<Answer, Refusal>
    requires { is_graph g.old ≡ true }
    ensures { called (answer_of result) g.new ≡ request_in_graph g.old (asked.binary ty op left.0 right.0) }
{
    call_in_graph(g, Request::Binary(left, right, ty, op))
}

pub fn binary(
    g: &mut [u64],
    ty: ScalarType,
    op: Binary,
    left: NodeId,
    right: NodeId,
) -> Result<Answer, Refusal>
    ensures { called (answer_of result) g.new ≡ request_call g.old (asked.binary ty op left.0 right.0) }
{
    call(g, Request::Binary(left, right, ty, op))
}

pub fn slice_in_graph(
    g: &mut Region,
    value: NodeId,
    offset: u16,
    width: u16,
) -> Result<Answer, Refusal>
    requires { is_graph g.old ≡ true }
    ensures { called (answer_of result) g.new ≡ request_in_graph g.old (asked.slice value.0 offset width) }
{
    call_in_graph(g, Request::Slice(value, offset, width))
}

pub fn slice(g: &mut [u64], value: NodeId, offset: u16, width: u16) -> Result<Answer, Refusal>
    ensures { called (answer_of result) g.new ≡ request_call g.old (asked.slice value.0 offset width) }
{
    call(g, Request::Slice(value, offset, width))
}

pub fn concat_in_graph(
    g: &mut Region,
    high: NodeId,
    low: NodeId,
    low_width: u16,
    width: u16,
) -> Result<Answer, Refusal>
    requires { is_graph g.old ≡ true }
    ensures { called (answer_of result) g.new ≡ request_in_graph g.old (asked.concat high.0 low.0 low_width width) }
{
    call_in_graph(g, Request::Concat(high, low, low_width, width))
}

pub fn concat(
    g: &mut [u64],
    high: NodeId,
    low: NodeId,
    low_width: u16,
    width: u16,
) -> Result<Answer, Refusal>
    ensures { called (answer_of result) g.new ≡ request_call g.old (asked.concat high.0 low.0 low_width width) }
{
    call(g, Request::Concat(high, low, low_width, width))
}

pub fn unsigned_range_in_graph(
    g: &mut Region,
    value: NodeId,
    low: Word,
    high: Word,
) -> Result<Answer, Refusal>
    requires { is_graph g.old ≡ true }
    ensures { called (answer_of result) g.new ≡ request_in_graph g.old (asked.unsigned_range value.0 (val low) (val high)) }
{
    call_in_graph(g, Request::UnsignedRange(value, low, high))
}

pub fn unsigned_range(
    g: &mut [u64],
    value: NodeId,
    low: Word,
    high: Word,
) -> Result<Answer, Refusal>
    ensures { called (answer_of result) g.new ≡ request_call g.old (asked.unsigned_range value.0 (val low) (val high)) }
{
    call(g, Request::UnsignedRange(value, low, high))
}

pub fn assume_guard_in_graph(
    g: &mut Region,
    condition: NodeId,
    expected: bool,
) -> Result<Answer, Refusal>
    requires { is_graph g.old ≡ true }
    ensures { called (answer_of result) g.new ≡ request_in_graph g.old (asked.guard condition.0 expected) }
{
    call_in_graph(g, Request::Guard(condition, expected))
}

pub fn assume_guard(g: &mut [u64], condition: NodeId, expected: bool) -> Result<Answer, Refusal>
    ensures { called (answer_of result) g.new ≡ request_call g.old (asked.guard condition.0 expected) }
{
    call(g, Request::Guard(condition, expected))
}
