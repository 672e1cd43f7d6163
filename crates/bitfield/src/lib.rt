// Single bits of nodes, and the two folds of bitfield.rs: concats of one node's own bits and of constants, and masked comparisons. Nothing here writes.
#![tactic(auto)]

pub mod bits;
pub mod equality;
pub mod fields;

use evaluate::Binary;
use graph::NodeId;
use range::ScalarType;
use word::Word;

// And of the base and a mask, then an operation on that and a literal; mask and literal are constants of the base's type.
#[derive(Clone, Copy)]
pub struct Masked {
    pub ty: ScalarType,
    pub base: NodeId,
    pub mask: Word,
    pub result: ScalarType,
    pub op: Binary,
    pub literal: Word,
}

// A bit that is known, or a bit of a node.
#[derive(Clone, Copy)]
pub enum Bit {
    Known(bool),
    Source(NodeId, u64),
}

// Where a bit of a node comes from: this one, a bit of an operand, or that bit turned over.
#[derive(Clone, Copy)]
pub enum BitStep {
    Here(Bit),
    From(NodeId, u64),
    Flipped(NodeId, u64),
}

// How often a bit was turned over on the way.
#[derive(Clone, Copy)]
pub enum Turns {
    Never,
    Odd,
    Even,
}

// A node of `width` bits, the low ones from one node and those from `low_width` on from another.
#[derive(Clone, Copy)]
pub struct Concat {
    pub high: NodeId,
    pub low: NodeId,
    pub low_width: u16,
    pub width: u16,
}

// The bits of a concat so far: the node that some come from, the mask of those, and the ones among the others.
#[derive(Clone, Copy)]
pub struct Field {
    pub base: Option<NodeId>,
    pub keep: Word,
    pub literal: Word,
}

// What an update of a base keeps of it, and the literal that it sets.
#[derive(Clone, Copy)]
pub struct Update {
    pub preserved: NodeId,
    pub literal: Word,
}

// One pair of base and update: None where the other pair is next, Some(None) where the fold ends, else what is found.
pub type PairFold = Option<Option<Masked>>;
