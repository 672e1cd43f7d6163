// The six builders: unary, modular, binary, slice, concat and identity call each other, and each entry costs a unit.
// A builder tests its units, does by itself what it can, and calls others for what is left: so the frames of the recursion are small.
// Each builder takes what the source's takes, one by one, and so do the calls in native and export.
#![tactic(auto)]

pub mod range_test;
pub mod step;

ghost use Rattle.std.specs.Prelude.{◌≡◌, ◌+◌, MatchResult};
ghost use Rattle.word.specs.Value.{val};
ghost use Rattle.graph.specs.Insert.{built_of};
ghost use Rattle.plan.specs.Plan as plan;
ghost use Rattle.build.specs.Build as call;
ghost use Rattle.build.specs.Build.{out, build, exec, tries, by_constant, plan_prog, attempt_prog};
ghost use Rattle.build.specs.Step.{entered, rest_prog, masked_prog, next_prog};

use crate::step::{MaskedNode, Next, Start, step};
use evaluate::{Binary, Unary};
use graph::layout::Region;
use graph::leaf::constant;
use graph::{NodeId, Unbuilt};
use plan::Rest;
use plan::one_operand::has_modular_plan;
use range::ScalarType;
use word::Word;

// What a call may still use.
#[derive(Clone, Copy)]
pub struct Budget {
    pub units: u64,
}

impl Budget {
    // A unit is taken off; without one nothing is.
    fn spend(&mut self) -> Result<(), Unbuilt>
        ensures { MatchResult result (λ _. self.old.units ≡ self.new.units + 1) (λ e. (e ≡ Unbuilt.Units) × (self.old.units ≡ 0) × (self.new.units ≡ 0)) }
    {
        self.units = self.units.checked_sub(1).ok_or(Unbuilt::Units)?;
        Ok(())
    }
}

// A builder spends a unit for its entry; without one it is refused. Inlined, so that the recursion has no frame more.
#[cycle(builders)]
#[inline(always)]
fn enter(g: &mut Region, budget: &mut Budget, start: Start) -> Result<NodeId, Unbuilt>
    ensures { out (built_of result) budget.new.units g.new ≡ entered start budget.old.units g.old }
{
    budget.spend()?;
    let next = step(g, start);
    perform(g, budget, next)
}

// The value at another type.
#[cycle(builders)]
pub fn identity(
    g: &mut Region,
    budget: &mut Budget,
    ty: ScalarType,
    value: NodeId,
) -> Result<NodeId, Unbuilt>
    ensures { out (built_of result) budget.new.units g.new ≡ build (call.identity ty value.0) budget.old.units g.old }
{
    enter(g, budget, Start::Identity(ty, value))
}

#[cycle(builders)]
pub fn unary(
    g: &mut Region,
    budget: &mut Budget,
    ty: ScalarType,
    op: Unary,
    value: NodeId,
) -> Result<NodeId, Unbuilt>
    ensures { out (built_of result) budget.new.units g.new ≡ build (call.unary ty op value.0) budget.old.units g.old }
{
    enter(g, budget, Start::Unary(ty, value, op))
}

// A truncation pushed through arithmetic.
#[cycle(builders)]
pub fn modular(
    g: &mut Region,
    budget: &mut Budget,
    value: NodeId,
    width: u16,
) -> Result<NodeId, Unbuilt>
    ensures { out (built_of result) budget.new.units g.new ≡ build (call.modular value.0 width) budget.old.units g.old }
{
    enter(g, budget, Start::Modular(width, value))
}

#[cycle(builders)]
pub fn binary(
    g: &mut Region,
    budget: &mut Budget,
    ty: ScalarType,
    op: Binary,
    left: NodeId,
    right: NodeId,
) -> Result<NodeId, Unbuilt>
    ensures { out (built_of result) budget.new.units g.new ≡ build (call.binary ty op left.0 right.0) budget.old.units g.old }
{
    enter(g, budget, Start::Binary(ty, op, left, right))
}

#[cycle(builders)]
pub fn slice(
    g: &mut Region,
    budget: &mut Budget,
    value: NodeId,
    offset: u64,
    width: u16,
) -> Result<NodeId, Unbuilt>
    ensures { out (built_of result) budget.new.units g.new ≡ build (call.slice value.0 offset width) budget.old.units g.old }
{
    enter(g, budget, Start::Slice(width, value, offset))
}

#[cycle(builders)]
pub fn concat(
    g: &mut Region,
    budget: &mut Budget,
    high: NodeId,
    low: NodeId,
    low_width: u16,
    width: u16,
) -> Result<NodeId, Unbuilt>
    ensures { out (built_of result) budget.new.units g.new ≡ build (call.concat high.0 low.0 low_width width) budget.old.units g.old }
{
    enter(g, budget, Start::Concat(low_width, width, high, low))
}

// A truncation that is tried; after None the rest of the builder follows. Most often its plan is None: then modular, which would cost a unit and answer it, need not be called.
#[cycle(builders)]
fn try_modular(
    g: &mut Region,
    budget: &mut Budget,
    value: NodeId,
    width: u16,
    rest: Rest,
) -> Result<NodeId, Unbuilt>
    ensures { out (built_of result) budget.new.units g.new ≡ exec build (tries (attempt_prog (plan.modular value.0 width)) (rest_prog rest)) budget.old.units g.old }
{
    if has_modular_plan(g, value, width) {
        let tried = modular(g, budget, value, width);
        let Err(Unbuilt::None) = tried else {
            return tried;
        };
    } else {
        budget.spend()?;
    }
    go_on(g, budget, rest)
}

// An operation on masked bits that is tried; after None the rest of the builder follows.
#[cycle(builders)]
fn try_masked(
    g: &mut Region,
    budget: &mut Budget,
    masked: MaskedNode,
    rest: Rest,
) -> Result<NodeId, Unbuilt>
    ensures { out (built_of result) budget.new.units g.new ≡ exec build (tries (masked_prog masked) (rest_prog rest)) budget.old.units g.old }
{
    let tried = masked_operation(g, budget, masked);
    let Err(Unbuilt::None) = tried else {
        return tried;
    };
    go_on(g, budget, rest)
}

// The rest of a builder.
#[cycle(builders)]
fn go_on(g: &mut Region, budget: &mut Budget, rest: Rest) -> Result<NodeId, Unbuilt>
    ensures { out (built_of result) budget.new.units g.new ≡ exec build (rest_prog rest g.old) budget.old.units g.old }
{
    let next = step(g, Start::Rest(rest));
    perform(g, budget, next)
}

// Does what is left of a builder's work.
#[cycle(builders)]
fn perform(g: &mut Region, budget: &mut Budget, next: Next) -> Result<NodeId, Unbuilt>
    ensures { out (built_of result) budget.new.units g.new ≡ exec build (next_prog next) budget.old.units g.old }
{
    match next {
        Next::Answer(built) => built,
        Next::Identity(value, ty) => identity(g, budget, ty, value),
        Next::Unary(value, ty, op) => unary(g, budget, ty, op, value),
        Next::Binary(left, right, ty, op) => binary(g, budget, ty, op, left, right),
        Next::Slice(value, offset, width) => slice(g, budget, value, offset, width),
        Next::SliceIdentity(base, offset, width, ty) => {
            slice_identity(g, budget, base, offset, width, ty)
        }
        Next::SliceShift(base, count, width, ty) => slice_shift(g, budget, base, width, ty, count),
        Next::AndOr(base, mask, value, ty) => and_or(g, budget, ty, base, mask, value),
        Next::Truncated(left, right, width, op) => truncated(g, budget, width, op, left, right),
        Next::SplitConcat(low, high, offset, low_width, high_width, width) => {
            split_concat(g, budget, low, offset, low_width, high, high_width, width)
        }
        Next::Modular(value, width, rest) => try_modular(g, budget, value, width, rest),
        Next::Masked(masked, rest) => try_masked(g, budget, masked, rest),
    }
}

// A constant, then an operation on the base and it.
#[cycle(builders)]
pub(crate) fn constant_binary(
    g: &mut Region,
    budget: &mut Budget,
    kind: ScalarType,
    value: Word,
    ty: ScalarType,
    op: Binary,
    base: NodeId,
) -> Result<NodeId, Unbuilt>
    ensures { out (built_of result) budget.new.units g.new ≡ exec build (by_constant kind (val value) ty op base.0) budget.old.units g.old }
{
    let right = constant(g, kind, value)?;
    binary(g, budget, ty, op, base, right)
}

#[cycle(builders)]
fn slice_identity(
    g: &mut Region,
    budget: &mut Budget,
    base: NodeId,
    offset: u64,
    width: u16,
    ty: ScalarType,
) -> Result<NodeId, Unbuilt>
    ensures { out (built_of result) budget.new.units g.new ≡ exec build (plan_prog (plan.slice_identity base.0 offset width ty)) budget.old.units g.old }
{
    let value = slice(g, budget, base, offset, width)?;
    identity(g, budget, ty, value)
}

#[cycle(builders)]
fn slice_shift(
    g: &mut Region,
    budget: &mut Budget,
    base: NodeId,
    width: u16,
    ty: ScalarType,
    count: Word,
) -> Result<NodeId, Unbuilt>
    ensures { out (built_of result) budget.new.units g.new ≡ exec build (plan_prog (plan.slice_shift base.0 width ty (val count))) budget.old.units g.old }
{
    let value = slice(g, budget, base, 0, width)?;
    constant_binary(
        g,
        budget,
        ScalarType::Integer,
        count,
        ty,
        Binary::ShiftLeft,
        value,
    )
}

#[cycle(builders)]
fn and_or(
    g: &mut Region,
    budget: &mut Budget,
    ty: ScalarType,
    base: NodeId,
    mask: NodeId,
    value: Word,
) -> Result<NodeId, Unbuilt>
    ensures { out (built_of result) budget.new.units g.new ≡ exec build (plan_prog (plan.and_or ty base.0 mask.0 (val value))) budget.old.units g.old }
{
    let kept = binary(g, budget, ty, Binary::And, base, mask)?;
    constant_binary(g, budget, ty, value, ty, Binary::Or, kept)
}

#[cycle(builders)]
fn truncated(
    g: &mut Region,
    budget: &mut Budget,
    width: u16,
    op: Binary,
    left: NodeId,
    right: NodeId,
) -> Result<NodeId, Unbuilt>
    ensures { out (built_of result) budget.new.units g.new ≡ exec build (plan_prog (plan.truncated width op left.0 right.0)) budget.old.units g.old }
{
    let ty = ScalarType::Bits(width);
    let a = unary(g, budget, ty, Unary::Truncate(width), left)?;
    let b = unary(g, budget, ty, Unary::Truncate(width), right)?;
    binary(g, budget, ty, op, a, b)
}

#[cycle(builders)]
fn split_concat(
    g: &mut Region,
    budget: &mut Budget,
    low: NodeId,
    offset: u64,
    low_width: u16,
    high: NodeId,
    high_width: u16,
    width: u16,
) -> Result<NodeId, Unbuilt>
    ensures { out (built_of result) budget.new.units g.new ≡ exec build (plan_prog (plan.split_concat low.0 offset low_width high.0 high_width width)) budget.old.units g.old }
{
    let lower = slice(g, budget, low, offset, low_width)?;
    let upper = slice(g, budget, high, 0, high_width)?;
    concat(g, budget, upper, lower, low_width, width)
}

// And of the base and the mask, then the operation on that and the literal.
#[cycle(builders)]
fn masked_operation(
    g: &mut Region,
    budget: &mut Budget,
    masked: MaskedNode,
) -> Result<NodeId, Unbuilt>
    ensures { out (built_of result) budget.new.units g.new ≡ exec build (masked_prog masked) budget.old.units g.old }
{
    let MaskedNode {
        base,
        mask,
        literal,
        ty,
        result,
        op,
    } = masked;
    let value = binary(g, budget, ty, Binary::And, base, mask)?;
    constant_binary(g, budget, ty, literal, result, op, value)
}
