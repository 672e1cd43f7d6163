// What the folds decide by: shapes of nodes, operator sets, comparisons by ranges, the range of a new node. Nothing here writes.
#![tactic(auto)]

pub mod compare;
pub mod new_range;
pub mod operator;
pub mod shape;

use evaluate::Binary;
use graph::NodeId;
use word::Word;

// A binary operation whose right operand is a constant.
#[derive(Clone, Copy)]
pub struct ByConstant {
    pub op: Binary,
    pub base: NodeId,
    pub value: Word,
}
