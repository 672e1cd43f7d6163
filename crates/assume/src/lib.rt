// Assuming a guard (assume.rs): nodes that it narrows get an alias, a Refine with the narrower range.
#![tactic(auto)]

pub mod base;
pub mod guard_assumed;
pub mod limit;
pub mod narrowing;
pub mod refine;

use graph::NodeId;
use range::Range;
use word::Signed;

// The least and the largest value, each if there is one.
#[derive(Clone, Copy)]
pub struct Limits {
    pub lower: Option<Signed>,
    pub upper: Option<Signed>,
}

// The limits of the left and of the right operand.
#[derive(Clone, Copy)]
pub struct Pair {
    pub left: Limits,
    pub right: Limits,
}

// Two operands, and their limits.
#[derive(Clone, Copy)]
pub struct Sides {
    pub left: NodeId,
    pub right: NodeId,
    pub limits: Pair,
}

// Nothing is written, or nodes are narrowed.
#[derive(Clone, Copy)]
pub enum Outcome {
    Unchanged,
    Narrowed,
}

// There is no room for a node.
#[derive(Clone, Copy)]
pub struct Full;

// A node, and the range to which it is refined next.
#[derive(Clone, Copy)]
pub struct Next {
    pub node: NodeId,
    pub range: Range,
}

// What one refinement did; after it a node may follow.
#[derive(Clone, Copy)]
pub(crate) enum Step {
    Unchanged,
    Narrowed(Option<Next>),
}
