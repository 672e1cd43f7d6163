// A request: a call that answers an id, None, Done or a refusal, with its arguments.
#![tactic(auto)]

pub mod codes;
pub mod questions;
pub mod typing;

use evaluate::{Binary, Unary};
use graph::{EffectId, InputId, NodeId};
use range::{Range, ScalarType};
use word::Word;

// A call that answers an id, None, Done or a refusal.
#[derive(Clone, Copy)]
pub enum Request {
    Constant(Word, ScalarType),
    Input(InputId, Option<Range>, ScalarType),
    Effect(EffectId, ScalarType),
    Unary(NodeId, ScalarType, Unary),
    Binary(NodeId, NodeId, ScalarType, Binary),
    // A node, an offset and a width.
    Slice(NodeId, u16, u16),
    // High, low, low's width and the width.
    Concat(NodeId, NodeId, u16, u16),
    // A node, the lowest value and the highest.
    UnsignedRange(NodeId, Word, Word),
    // A condition and what is expected of it.
    Guard(NodeId, bool),
    // A leaf whose type's code names nothing: the width beside it.
    UnnamedLeaf(u16),
    // An operation with a code that names nothing: the widths and ids beside it.
    UnnamedOperation(NodeId, NodeId, u16, u16),
}
