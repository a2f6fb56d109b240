use crate::SharedContent;
use lunit::{Copied, NoMemory};
use std::alloc::Global;

/// What a node is (CSS Grid 2, section 5; CSS Flexbox 1, section 3; leaves are this project's own).
#[derive(Drop)]
pub enum NodeKind {
    /// A grid container, or a subgrid where its template says so.
    Grid,
    /// A flex container.
    Flex,
    /// A leaf with this content.
    Leaf(SharedContent),
}

impl Copied for NodeKind {
    fn copy(&self, alloc: Global) -> Result<NodeKind, NoMemory> {
        match self {
            NodeKind::Grid => Ok(NodeKind::Grid),
            NodeKind::Flex => Ok(NodeKind::Flex),
            NodeKind::Leaf(content) => Ok(NodeKind::Leaf(content.copy(alloc)?)),
        }
    }
}
