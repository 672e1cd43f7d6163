// The plan of binary: its decisions in the source's order. Nothing here writes.
#![tactic(auto)]

pub mod binary;
pub mod constant_right;
pub mod shift;

use evaluate::Binary;
use graph::NodeId;
use range::ScalarType;

// A binary node that is asked for: its type, its operator and its operands.
#[derive(Clone, Copy)]
pub struct BinaryNode {
    pub ty: ScalarType,
    pub op: Binary,
    pub left: NodeId,
    pub right: NodeId,
}
