// The node region: nodes in a lent slice of 64-bit words, interning, and the builders of leaves.
#![tactic(auto)]

pub mod alias;
pub mod clear;
pub mod encode;
pub mod insert;
pub mod layout;
pub mod leaf;
pub mod read;
pub mod walk;
pub mod well_formed;

use evaluate::{Binary, Unary};
use range::{Range, ScalarType};
use word::Word;

#[derive(Clone, Copy, PartialEq, Eq, PartialOrd, Ord)]
pub struct NodeId(pub u64);

#[derive(Clone, Copy, PartialEq, Eq, PartialOrd, Ord)]
pub struct InputId(pub u64);

#[derive(Clone, Copy, PartialEq, Eq, PartialOrd, Ord)]
pub struct EffectId(pub u64);

#[derive(Clone, Copy, PartialEq, Eq)]
pub enum Operation {
    Constant(Word),
    Input(InputId),
    // The value of its source, with a range that a guard showed, or as a value of another type.
    Refine(NodeId),
    Effect(EffectId),
    Slice {
        value: NodeId,
        offset: u16,
        width: u16,
    },
    Concat {
        high: NodeId,
        low: NodeId,
        low_width: u16,
    },
    Unary(Unary, NodeId),
    Binary(Binary, NodeId, NodeId),
}

// A node as its words say, but for its alias.
#[derive(Clone, Copy, PartialEq, Eq)]
pub struct Node {
    pub ty: ScalarType,
    pub range: Option<Range>,
    pub operation: Operation,
}

// Why a builder gives no node: the Rust's None, no room for a node, or no units left.
#[derive(Clone, Copy, PartialEq, Eq)]
pub enum Unbuilt {
    None,
    Room,
    Units,
}
