// What a builder does by itself: it resolves, decides, and adds the nodes that come before a call of another builder.
// The order of the fields is chosen by measurement: a value that is written in small parts and read as a whole makes the reader wait.
ghost use Rattle.std.specs.Prelude.{◌≡◌};
ghost use Rattle.word.specs.Value.{val};
ghost use Rattle.bitfield.specs.Bitfield.{mask_of};
ghost use Rattle.plan.specs.Plan.{plan_of, first_of, rest_of, does, tries, constant_binary, masked};
ghost use Rattle.build.specs.Rest.{rest_plan};
ghost use Rattle.build.specs.Step.{start_first, Leaves};

use bitfield::{Concat, Masked};
use evaluate::{Binary, Unary};
use graph::insert::insert;
use graph::layout::Region;
use graph::leaf::constant;
use graph::read::resolve;
use graph::{NodeId, Unbuilt};
use plan::one_operand::{identity_plan, modular_plan, unary_first, unary_plan};
use plan::{Attempt, First, Plan, Rest};
use plan_binary::BinaryNode;
use plan_binary::binary::{binary_first, binary_plan};
use plan_slice::slice::{concat_first, concat_plan, slice_first, slice_plan};
use range::ScalarType;
use word::Word;

// What a builder starts from: its arguments, or where it goes on after a fold that came to None.
#[derive(Clone, Copy)]
pub(crate) enum Start {
    Identity(ScalarType, NodeId),
    Unary(ScalarType, NodeId, Unary),
    Modular(u16, NodeId),
    Binary(ScalarType, Binary, NodeId, NodeId),
    Slice(u16, NodeId, u64),
    Concat(u16, u16, NodeId, NodeId),
    Rest(Rest),
}

// A masked operation whose mask is a node: not `Masked` with a type parameter, whose fields stand in another order.
#[derive(Clone, Copy)]
pub(crate) struct MaskedNode {
    pub base: NodeId,
    pub mask: NodeId,
    pub literal: Word,
    pub ty: ScalarType,
    pub result: ScalarType,
    pub op: Binary,
}

// What is left of a builder's work: its answer, or calls of builders. Those that `Plan` has too are named twice: one enum inside both would be named at
// each place that gives such a plan.
#[derive(Clone, Copy)]
pub(crate) enum Next {
    Answer(Result<NodeId, Unbuilt>),
    Identity(NodeId, ScalarType),
    Unary(NodeId, ScalarType, Unary),
    Binary(NodeId, NodeId, ScalarType, Binary),
    Slice(NodeId, u64, u16),
    SliceIdentity(NodeId, u64, u16, ScalarType),
    SliceShift(NodeId, Word, u16, ScalarType),
    AndOr(NodeId, NodeId, Word, ScalarType),
    Truncated(NodeId, NodeId, u16, Binary),
    SplitConcat(NodeId, NodeId, u64, u16, u16, u16),
    // A fold that may come to None, and where its builder goes on then.
    Modular(NodeId, u16, Rest),
    Masked(MaskedNode, Rest),
}

// The plan of the rest.
#[tactic(auto, unfolding(crate::specs::Rest::rest_plan))]
fn rest_plan(g: &Region, rest: Rest) -> Plan
    ensures { plan_of result ≡ rest_plan g.now (rest_of rest) }
{
    match rest {
        Rest::Unary(value, ty, op) => unary_plan(g, ty, op, value),
        Rest::Binary(left, right, ty, op) => binary_plan(
            g,
            BinaryNode {
                ty,
                op,
                left,
                right,
            },
        ),
        Rest::Slice(value, offset, width) => slice_plan(g, value, offset, width),
        Rest::Concat(high, low, low_width, width) => concat_plan(Concat {
            high,
            low,
            low_width,
            width,
        }),
    }
}

// What a builder decides; operands are resolved, but those of identity and modular.
fn first_of(g: &Region, start: Start) -> First
    ensures { first_of result ≡ start_first start g.now }
{
    match start {
        Start::Identity(ty, value) => First::Do(identity_plan(g, ty, value)),
        Start::Unary(ty, value, op) => unary_first(g, ty, op, resolve(g, value)),
        Start::Modular(width, value) => First::Do(modular_plan(g, value, width)),
        Start::Binary(ty, op, left, right) => binary_first(
            g,
            BinaryNode {
                ty,
                op,
                left: resolve(g, left),
                right: resolve(g, right),
            },
        ),
        Start::Slice(width, value, offset) => slice_first(g, resolve(g, value), offset, width),
        Start::Concat(low_width, width, high, low) => concat_first(
            g,
            Concat {
                high: resolve(g, high),
                low: resolve(g, low),
                low_width,
                width,
            },
        ),
        Start::Rest(rest) => First::Do(rest_plan(g, rest)),
    }
}

// A constant is added; the operation on the base and it is left.
fn after_constant(
    g: &mut Region,
    kind: ScalarType,
    value: Word,
    ty: ScalarType,
    op: Binary,
    base: NodeId,
) -> Next
    ensures { Leaves result g.new (does (constant_binary kind (val value) ty op base.0)) g.old }
{
    match constant(g, kind, value) {
        Ok(right) => Next::Binary(base, right, ty, op),
        built => Next::Answer(built),
    }
}

// What is left of a plan.
fn begin(g: &mut Region, plan: Plan) -> Next
    ensures { Leaves result g.new (does (plan_of plan)) g.old }
{
    match plan {
        Plan::Give(id) => Next::Answer(Ok(id)),
        Plan::None => Next::Answer(Err(Unbuilt::None)),
        Plan::Constant(value, ty) => Next::Answer(constant(g, ty, value)),
        Plan::Add(range, operation, ty) => Next::Answer(insert(g, ty, range, operation)),
        Plan::Identity(value, ty) => Next::Identity(value, ty),
        Plan::Unary(value, ty, op) => Next::Unary(value, ty, op),
        Plan::Binary(left, right, ty, op) => Next::Binary(left, right, ty, op),
        Plan::Slice(value, offset, width) => Next::Slice(value, offset, width),
        Plan::SliceIdentity(base, offset, width, ty) => {
            Next::SliceIdentity(base, offset, width, ty)
        }
        Plan::SliceShift(base, count, width, ty) => Next::SliceShift(base, count, width, ty),
        Plan::ConstantBinary(value, base, kind, ty, op) => {
            after_constant(g, kind, value, ty, op, base)
        }
        Plan::AndOr(base, mask, value, ty) => Next::AndOr(base, mask, value, ty),
        Plan::Truncated(left, right, width, op) => Next::Truncated(left, right, width, op),
        Plan::SplitConcat(low, high, offset, low_width, high_width, width) => {
            Next::SplitConcat(low, high, offset, low_width, high_width, width)
        }
    }
}

// The mask is added as a constant; the operation is left, to be tried.
fn begin_masked(g: &mut Region, fold: Masked, rest: Rest) -> Next
    ensures { Leaves result g.new (tries (masked (mask_of fold)) (rest_of rest)) g.old }
{
    let Masked {
        base,
        mask,
        literal,
        ty,
        result,
        op,
    } = fold;
    match constant(g, ty, mask) {
        Ok(mask) => {
            let node = MaskedNode {
                base,
                mask,
                literal,
                ty,
                result,
                op,
            };
            Next::Masked(node, rest)
        }
        built => Next::Answer(built),
    }
}

// What is left of a builder's work.
pub(crate) fn step(g: &mut Region, start: Start) -> Next
    ensures { Leaves result g.new (start_first start g.old) g.old }
{
    match first_of(g, start) {
        First::Do(plan) => begin(g, plan),
        First::Try(Attempt::Modular(value, width), rest) => Next::Modular(value, width, rest),
        First::Try(Attempt::Masked(fold), rest) => begin_masked(g, fold, rest),
    }
}
