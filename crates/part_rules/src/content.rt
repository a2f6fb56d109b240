use lunit::{Copied, Lu, NoMemory, Sequence};
use std::alloc::Global;

/// What a leaf holds (own rule): a box of fixed size, or words that are filled into lines.
#[derive(Debug, Drop, PartialEq, Eq)]
pub enum Content {
    /// A box of this width, which has this height at every width.
    Fixed {
        width: Lu,
        height: Lu,
    },
    /// Words of these widths, from first to last. `line` is the height of a line and `space` the width between two words.
    Words {
        line: Lu,
        space: Lu,
        words: Sequence<Lu>,
    },
}

impl Copied for Content {
    fn copy(&self, alloc: Global) -> Result<Content, NoMemory> {
        match self {
            Content::Fixed { width, height } => Ok(Content::Fixed {
                width: *width,
                height: *height,
            }),
            Content::Words { line, space, words } => Ok(Content::Words {
                line: *line,
                space: *space,
                words: Sequence::from_slice(alloc, words.as_slice())?,
            }),
        }
    }
}
