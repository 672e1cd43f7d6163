// What a builder does next, read off the region, and the plans of identity, unary and modular. Nothing here writes.
#![tactic(auto)]

pub mod one_operand;

use bitfield::Masked;
use evaluate::{Binary, Unary};
use graph::{NodeId, Operation};
use range::{Range, ScalarType};
use word::Word;

// What a builder does next, with a builder's arguments one by one, as they are handed to it. Offsets are u64, so that no sum of them is too large.
#[derive(Clone, Copy)]
pub enum Plan {
    Give(NodeId),
    // The original's None, which ends a builder. No `Option<Plan>` stands for it: that one asks the next rule.
    None,
    Constant(Word, ScalarType),
    Add(Option<Range>, Operation, ScalarType),
    Identity(NodeId, ScalarType),
    Unary(NodeId, ScalarType, Unary),
    Binary(NodeId, NodeId, ScalarType, Binary),
    Slice(NodeId, u64, u16),
    // A slice of a node at an offset and width, as a value of the type.
    SliceIdentity(NodeId, u64, u16, ScalarType),
    // The low bits of a node, that many, shifted left by an Integer constant in the type.
    SliceShift(NodeId, Word, u16, ScalarType),
    // A constant of the first type, then an operation of the second type on the node and it.
    ConstantBinary(Word, NodeId, ScalarType, ScalarType, Binary),
    // And of both nodes, then Or of that and a constant.
    AndOr(NodeId, NodeId, Word, ScalarType),
    // Both nodes truncated to the width, then the operation on them.
    Truncated(NodeId, NodeId, u16, Binary),
    // A slice of the low node at an offset and width, one of the high node at 0 and a width, and their concat.
    SplitConcat(NodeId, NodeId, u64, u16, u16, u16),
}

// A fold that may come to None, after which its builder goes on.
#[derive(Clone, Copy)]
pub enum Attempt {
    Modular(NodeId, u16),
    Masked(Masked),
}

// Where a builder goes on, with its arguments; operands are resolved.
#[derive(Clone, Copy)]
pub enum Rest {
    Unary(NodeId, ScalarType, Unary),
    Binary(NodeId, NodeId, ScalarType, Binary),
    Slice(NodeId, u64, u16),
    Concat(NodeId, NodeId, u16, u16),
}

// What a builder does first.
#[derive(Clone, Copy)]
pub enum First {
    Do(Plan),
    Try(Attempt, Rest),
}

// Down a chain of Refines: the first source of a type, or the node where the chain starts.
#[derive(Clone, Copy)]
pub enum View {
    Same(NodeId),
    Source(NodeId),
}
