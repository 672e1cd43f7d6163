// The plans of slice and concat. Nothing here writes.
#![tactic(auto)]

pub mod slice;

use graph::NodeId;

// A slice: of which node, from which offset.
#[derive(Clone, Copy)]
pub struct Cut {
    pub value: NodeId,
    pub offset: u16,
}
