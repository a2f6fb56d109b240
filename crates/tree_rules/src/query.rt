use crate::{Counts, SharedTracks};
use lunit::{Copied, Lu, NoMemory};
use std::alloc::Global;

/// What is asked of a node.
#[derive(Clone, Copy, Debug, PartialEq, Eq)]
pub enum Ask {
    /// The two intrinsic inline sizes of its content, min-content and max-content (CSS Sizing 3,
    /// section 5).
    Inline,
    /// The items that a subgrid lends to the grid that sizes its columns (CSS Grid 2, section 9).
    LendColumns,
    /// The block size of its content.
    Block,
    /// The items that a subgrid lends to the grid that sizes its rows.
    LendRows,
    /// The rectangles of its children, and what each is given.
    Frames,
}

/// What a node is given in one axis.
#[derive(Debug, Drop, PartialEq, Eq)]
pub enum Given {
    /// Nothing: the answer does not depend on it.
    None,
    /// The size of its content box, in units of 1/64 px.
    Size(Lu),
    /// For a subgrid the tracks that it spans: the start and the end of each, in units of 1/64 px from the start of its
    /// content box, and the gutter (CSS Grid 2, section 9).
    Tracks(SharedTracks, Lu),
}

/// A question about one node.
#[derive(Debug, Drop, PartialEq, Eq)]
pub struct Query {
    /// What is asked.
    pub ask: Ask,
    /// The counts of automatic repetitions, columns first, of the grids whose lines and tracks the node can see, from
    /// the topmost of them to its parent. A node that is no subgrid sees none.
    pub reps: Counts,
    /// What it is given in the inline axis: nothing for `Inline` and `LendColumns`.
    pub inline: Given,
    /// What it is given in the block axis: nothing but for `Frames`.
    pub block: Given,
}

impl Copied for Given {
    fn copy(&self, alloc: Global) -> Result<Given, NoMemory> {
        match self {
            Given::None => Ok(Given::None),
            Given::Size(size) => Ok(Given::Size(*size)),
            Given::Tracks(edges, gap) => {
                let edges = edges.again()?;
                Ok(Given::Tracks(edges, *gap))
            }
        }
    }
}

impl Copied for Query {
    fn copy(&self, alloc: Global) -> Result<Query, NoMemory> {
        Ok(Query {
            ask: self.ask,
            reps: Counts::from_slice(alloc, self.reps.as_slice())?,
            inline: self.inline.copy(alloc)?,
            block: self.block.copy(alloc)?,
        })
    }
}
