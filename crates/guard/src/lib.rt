// Guards (linear.rs): the comparison that a condition is, and whether two values match it. Nothing here writes.
#![tactic(auto)]

pub mod guarded;
pub mod matches;
pub mod reading;

use answer::Refusal;
use evaluate::Binary;
use graph::NodeId;

// A node, and what is expected of it.
#[derive(Clone, Copy)]
pub struct Condition {
    pub node: NodeId,
    pub expected: bool,
}

// Two nodes compared.
#[derive(Clone, Copy)]
pub struct Comparison {
    pub op: Binary,
    pub left: NodeId,
    pub right: NodeId,
}

// A comparison of two nodes, what is expected of it, and whether 64 bits of each value suffice.
#[derive(Clone, Copy)]
pub struct Guard {
    pub operation: Binary,
    pub left: NodeId,
    pub right: NodeId,
    pub expected: bool,
    pub host64: bool,
}
