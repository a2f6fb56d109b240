//! What a node keeps and all who read it share: a list of frames, a grid before its children are asked, a grid in its columns, a row
//! and a column with what their children told.

ghost use Rattle.std.specs.Prelude.{◌≡◌, IfOk, IfSome};

use crate::lined::{ColumnParts, RowParts};
use crate::node::Frame;
use crate::wide::{GridBase, GridWide};
use lunit::{NoMemory, Sequence};
use std::alloc::Global;
use std::marker::Model;
use std::rc::Rc;

/// The frames of the children of a container, in document order. A list is made once, and all who read it share it.
#[derive(Drop)]
pub struct SharedFrames {
    frames: Rc<Sequence<Frame>>,
}

impl Model for SharedFrames {
    ghost use Rattle.std.specs.Prelude.{List};
    ghost use Rattle.std.specs.Coded.{coded_list};
    ghost use Rattle.placing.specs.declared.node.Frame.{Frame};
    ghost use Rattle.placing.specs.contracts.node.Frame as frame;

    ghost Value = { List Frame };

    ghost coded = { coded_list frame.the_row.coded };

    ghost view = { λ a. a.frames.value };
}

impl SharedFrames {
    /// These frames; `NoMemory` where memory is wanting.
    pub fn new(alloc: Global, frames: Sequence<Frame>) -> Result<SharedFrames, NoMemory>
        ensures { IfOk result (λ made. made ≡ frames) }
    {
        Ok(SharedFrames {
            frames: Rc::new(alloc, frames)?,
        })
    }

    /// These frames once more. Takes no memory; `NoMemory` only where they are shared more often
    /// than can be counted.
    pub fn again(&self) -> Result<SharedFrames, NoMemory>
        ensures { IfOk result (λ other. other ≡ self.now) }
    {
        Ok(SharedFrames {
            frames: self.frames.clone()?,
        })
    }

    /// The frames; `None` only where they are shared.
    pub(crate) fn into_inner(self) -> Option<Sequence<Frame>>
        ensures { IfSome result (λ frames. frames ≡ self) }
    {
        let SharedFrames { frames } = self;
        Rc::into_inner(frames)
    }

    /// The frames in order.
    pub fn as_slice(&self) -> &[Frame]
        ensures { result.now ≡ self.now }
    {
        self.frames.as_ref().as_slice()
    }
}

/// A grid before its children are asked. It is made once, and all who read it share it.
#[derive(Drop)]
pub struct SharedBase {
    base: Rc<GridBase>,
}

impl Model for SharedBase {
    ghost use Rattle.placing.specs.declared.wide.GridBase.{GridBase};
    ghost use Rattle.placing.specs.contracts.wide.GridBase as grid_base;

    ghost Value = { GridBase };

    ghost coded = { grid_base.the_row.coded };

    ghost view = { λ a. a.base.value };
}

impl SharedBase {
    /// This grid; `NoMemory` where memory is wanting.
    pub fn new(alloc: Global, base: GridBase) -> Result<SharedBase, NoMemory>
        ensures { IfOk result (λ made. made ≡ base) }
    {
        Ok(SharedBase {
            base: Rc::new(alloc, base)?,
        })
    }

    /// This grid once more. Takes no memory; `NoMemory` only where it is shared more often than can
    /// be counted.
    pub fn again(&self) -> Result<SharedBase, NoMemory>
        ensures { IfOk result (λ other. other ≡ self.now) }
    {
        Ok(SharedBase {
            base: self.base.clone()?,
        })
    }

    /// The grid.
    pub fn grid(&self) -> &GridBase
        ensures { result.now ≡ self.now }
    {
        self.base.as_ref()
    }
}

/// A grid with its columns and its children in them. It is made once, and all who read it share it.
#[derive(Drop)]
pub struct SharedWide {
    wide: Rc<GridWide>,
}

impl Model for SharedWide {
    ghost use Rattle.placing.specs.declared.wide.GridWide.{GridWide};
    ghost use Rattle.placing.specs.contracts.wide.GridWide as grid_wide;

    ghost Value = { GridWide };

    ghost coded = { grid_wide.the_row.coded };

    ghost view = { λ a. a.wide.value };
}

impl SharedWide {
    /// This grid; `NoMemory` where memory is wanting.
    pub fn new(alloc: Global, wide: GridWide) -> Result<SharedWide, NoMemory>
        ensures { IfOk result (λ made. made ≡ wide) }
    {
        Ok(SharedWide {
            wide: Rc::new(alloc, wide)?,
        })
    }

    /// This grid once more. Takes no memory; `NoMemory` only where it is shared more often than can
    /// be counted.
    pub fn again(&self) -> Result<SharedWide, NoMemory>
        ensures { IfOk result (λ other. other ≡ self.now) }
    {
        Ok(SharedWide {
            wide: self.wide.clone()?,
        })
    }

    /// The grid itself; `None` only where others share it.
    pub(crate) fn into_inner(self) -> Option<GridWide>
        ensures { IfSome result (λ wide. wide ≡ self) }
    {
        let SharedWide { wide } = self;
        Rc::into_inner(wide)
    }

    /// The grid.
    pub fn grid(&self) -> &GridWide
        ensures { result.now ≡ self.now }
    {
        self.wide.as_ref()
    }
}

/// A row with its children in their lines. It is made once, and all who read it share it.
#[derive(Drop)]
pub struct SharedRowParts {
    parts: Rc<RowParts>,
}

impl Model for SharedRowParts {
    ghost use Rattle.placing.specs.declared.lined.RowParts.{RowParts};
    ghost use Rattle.placing.specs.contracts.lined.RowParts as row_parts;

    ghost Value = { RowParts };

    ghost coded = { row_parts.the_row.coded };

    ghost view = { λ a. a.parts.value };
}

impl SharedRowParts {
    /// This row; `NoMemory` where memory is wanting.
    pub fn new(alloc: Global, parts: RowParts) -> Result<SharedRowParts, NoMemory>
        ensures { IfOk result (λ made. made ≡ parts) }
    {
        Ok(SharedRowParts {
            parts: Rc::new(alloc, parts)?,
        })
    }

    /// This row once more. Takes no memory; `NoMemory` only where it is shared more often than can
    /// be counted.
    pub fn again(&self) -> Result<SharedRowParts, NoMemory>
        ensures { IfOk result (λ other. other ≡ self.now) }
    {
        Ok(SharedRowParts {
            parts: self.parts.clone()?,
        })
    }

    /// This row.
    pub fn parts(&self) -> &RowParts
        ensures { result.now ≡ self.now }
    {
        self.parts.as_ref()
    }
}

/// A column with its children as wide as they are in it. It is made once, and all who read it share it.
#[derive(Drop)]
pub struct SharedColumnParts {
    parts: Rc<ColumnParts>,
}

impl Model for SharedColumnParts {
    ghost use Rattle.placing.specs.declared.lined.ColumnParts.{ColumnParts};
    ghost use Rattle.placing.specs.contracts.lined.ColumnParts as column_parts;

    ghost Value = { ColumnParts };

    ghost coded = { column_parts.the_row.coded };

    ghost view = { λ a. a.parts.value };
}

impl SharedColumnParts {
    /// This column; `NoMemory` where memory is wanting.
    pub fn new(alloc: Global, parts: ColumnParts) -> Result<SharedColumnParts, NoMemory>
        ensures { IfOk result (λ made. made ≡ parts) }
    {
        Ok(SharedColumnParts {
            parts: Rc::new(alloc, parts)?,
        })
    }

    /// This column once more. Takes no memory; `NoMemory` only where it is shared more often than can
    /// be counted.
    pub fn again(&self) -> Result<SharedColumnParts, NoMemory>
        ensures { IfOk result (λ other. other ≡ self.now) }
    {
        Ok(SharedColumnParts {
            parts: self.parts.clone()?,
        })
    }

    /// This column.
    pub fn parts(&self) -> &ColumnParts
        ensures { result.now ≡ self.now }
    {
        self.parts.as_ref()
    }
}
