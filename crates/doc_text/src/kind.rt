use lunit::{Copied, NoMemory};
use part_rules::Content;
use std::alloc::Global;

/// What a node is (CSS Grid 2, section 5; CSS Flexbox 1, section 3; leaves are this project's own).
#[derive(Debug, Drop, PartialEq, Eq)]
pub enum Kind {
    /// A grid container, or a subgrid where its template says so.
    Grid,
    /// A flex container.
    Flex,
    /// A leaf with this content.
    Leaf(Content),
}

impl Copied for Kind {
    fn copy(&self, alloc: Global) -> Result<Kind, NoMemory> {
        match self {
            Kind::Grid => Ok(Kind::Grid),
            Kind::Flex => Ok(Kind::Flex),
            Kind::Leaf(content) => Ok(Kind::Leaf(content.copy(alloc)?)),
        }
    }
}
