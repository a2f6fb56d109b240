//! What the children of a grid told, as the grid keeps it longer than its answers (own rule): after an edit only those children
//! are asked again whose answers went.

ghost use Rattle.std.specs.Prelude.{◌≡◌, [], None, IfOk, IfSome};
ghost use Rattle.placing.specs.Told.{no_past};

use crate::bases::Bases;
use crate::lined::{KeptAlong, ToldMember};
use crate::node::Frame;
use crate::shared::{SharedBase, SharedFrames, SharedWide};
use crate::wide::{GridParts, RowsAt, WideChild};
use lunit::{Item, NoMemory, Sequence};
use part_rules::View;
use std::alloc::Global;
use std::marker::Model;
use std::rc::Rc;
use style_types::Align;

/// What the children of a grid told for its columns.
#[derive(Drop)]
pub struct ToldColumns {
    /// The grid with what they told.
    pub parts: GridParts,
    /// How many items stand up to the last one of each child, in the order of the areas.
    pub ends: Sequence<usize>,
}

/// What the children of a grid told for its rows.
#[derive(Drop)]
pub struct ToldRows {
    /// Where the columns lay.
    pub columns: View<0>,
    /// How the grid aligned its children in them (`justify-items`).
    pub align: Align,
    /// The children in them, in the order of the areas.
    pub children: Sequence<WideChild>,
    /// The items that size the rows.
    pub items: Sequence<Item>,
    /// How many items stand up to the last one of each child, in the order of the areas.
    pub ends: Sequence<usize>,
}

/// What a grid keeps of what its children told for its columns.
#[derive(Drop)]
pub struct KeptColumns {
    /// What they told.
    pub told: ToldColumns,
    /// The turn of each child then, in the order of the areas.
    pub turns: Sequence<u64>,
}

/// What a grid keeps of what its children told for its columns and its rows.
#[derive(Drop)]
pub struct KeptWide {
    /// What they told, with the grid in its columns.
    pub wide: SharedWide,
    /// How the grid aligned its children in them (`justify-items`).
    pub align: Align,
    /// How many items along the columns stand up to the last one of each child, in the order of the areas.
    pub column_ends: Sequence<usize>,
    /// How many items along the rows stand up to the last one of each child.
    pub row_ends: Sequence<usize>,
    /// The turn of each child then.
    pub turns: Sequence<u64>,
}

/// What the children of a grid told for its columns, some of which must be asked again.
#[derive(Drop)]
pub struct PastColumns {
    /// What they told.
    pub told: ToldColumns,
    /// The indices of those that must be asked again, in the order of the areas.
    pub stale: Sequence<usize>,
}

/// What the children of a grid told for its rows, some of which must be asked again.
#[derive(Drop)]
pub struct PastRows {
    /// The grid before they were asked.
    pub base: SharedBase,
    /// What they told.
    pub told: ToldRows,
    /// Where the rows lie that are as great as all that makes them, if that is known.
    pub rows: Option<RowsAt>,
    /// The indices of those that must be asked again, in the order of the areas.
    pub stale: Sequence<usize>,
}

/// The frames of the children of a grid, as it keeps them longer than its answers.
#[derive(Drop)]
pub struct KeptFrames {
    /// The grid before its children are asked.
    pub base: SharedBase,
    /// Where its columns lay.
    pub columns: View<0>,
    /// Where its rows lay.
    pub rows: View<1>,
    /// The frames, in document order.
    pub frames: SharedFrames,
    /// The turn of each child then, in the order of the areas.
    pub turns: Sequence<u64>,
}

/// The frames of the children of a grid, some of which must be made again.
#[derive(Drop)]
pub struct PastFrames {
    /// The grid before its children are asked.
    pub base: SharedBase,
    /// Where its columns lay.
    pub columns: View<0>,
    /// Where its rows lay.
    pub rows: View<1>,
    /// The frames, in document order.
    pub frames: Sequence<Frame>,
    /// For each child, in the order of the areas, whether its answers did not go since.
    pub fresh: Sequence<bool>,
}

/// What the children of a grid told for its columns and its rows, some of which must be asked
/// again.
#[derive(Drop)]
pub struct PastWide {
    /// What they told for the columns.
    pub columns: PastColumns,
    /// What they told for the rows.
    pub rows: PastRows,
}

/// What a grid keeps of what its children told for its columns. It is made once, and left whole.
#[derive(Drop)]
pub struct SharedColumns {
    kept: Rc<KeptColumns>,
}

impl Model for SharedColumns {
    ghost use Rattle.placing.specs.declared.told.KeptColumns.{KeptColumns};
    ghost use Rattle.placing.specs.contracts.told.KeptColumns as kept_columns;

    ghost Value = { KeptColumns };

    ghost coded = { kept_columns.the_row.coded };

    ghost view = { λ a. a.kept.value };
}

impl SharedColumns {
    /// This; `NoMemory` where memory is wanting.
    pub(crate) fn new(alloc: Global, kept: KeptColumns) -> Result<SharedColumns, NoMemory>
        ensures { IfOk result (λ made. made ≡ kept) }
    {
        Ok(SharedColumns {
            kept: Rc::new(alloc, kept)?,
        })
    }

    /// What it holds; `None` only where it is shared.
    pub(crate) fn into_inner(self) -> Option<KeptColumns>
        ensures { IfSome result (λ kept. kept ≡ self) }
    {
        let SharedColumns { kept } = self;
        Rc::into_inner(kept)
    }
}

/// What a grid keeps of what its children told for its columns and its rows.
#[derive(Drop)]
pub struct SharedTold {
    kept: Rc<KeptWide>,
}

impl Model for SharedTold {
    ghost use Rattle.placing.specs.declared.told.KeptWide.{KeptWide};
    ghost use Rattle.placing.specs.contracts.told.KeptWide as kept_wide;

    ghost Value = { KeptWide };

    ghost coded = { kept_wide.the_row.coded };

    ghost view = { λ a. a.kept.value };
}

impl SharedTold {
    /// This; `NoMemory` where memory is wanting.
    pub(crate) fn new(alloc: Global, kept: KeptWide) -> Result<SharedTold, NoMemory>
        ensures { IfOk result (λ made. made ≡ kept) }
    {
        Ok(SharedTold {
            kept: Rc::new(alloc, kept)?,
        })
    }

    /// What it holds; `None` only where it is shared.
    pub(crate) fn into_inner(self) -> Option<KeptWide>
        ensures { IfSome result (λ kept. kept ≡ self) }
    {
        let SharedTold { kept } = self;
        Rc::into_inner(kept)
    }
}

/// The frames of the children of a grid, as it keeps them longer than its answers.
#[derive(Drop)]
pub struct SharedLast {
    kept: Rc<KeptFrames>,
}

impl Model for SharedLast {
    ghost use Rattle.placing.specs.declared.told.KeptFrames.{KeptFrames};
    ghost use Rattle.placing.specs.contracts.told.KeptFrames as kept_frames;

    ghost Value = { KeptFrames };

    ghost coded = { kept_frames.the_row.coded };

    ghost view = { λ a. a.kept.value };
}

impl SharedLast {
    /// This; `NoMemory` where memory is wanting.
    pub(crate) fn new(alloc: Global, kept: KeptFrames) -> Result<SharedLast, NoMemory>
        ensures { IfOk result (λ made. made ≡ kept) }
    {
        Ok(SharedLast {
            kept: Rc::new(alloc, kept)?,
        })
    }

    /// What it holds; `None` only where it is shared.
    pub(crate) fn into_inner(self) -> Option<KeptFrames>
        ensures { IfSome result (λ kept. kept ≡ self) }
    {
        let SharedLast { kept } = self;
        Rc::into_inner(kept)
    }
}

/// What the children of a flex container told for its inline sizes, as it keeps it longer than its answers.
#[derive(Drop)]
pub struct SharedMembers {
    told: Rc<Sequence<ToldMember>>,
}

impl Model for SharedMembers {
    ghost use Rattle.std.specs.Prelude.{List};
    ghost use Rattle.std.specs.Coded.{coded_list};
    ghost use Rattle.placing.specs.declared.lined.ToldMember.{ToldMember};
    ghost use Rattle.placing.specs.contracts.lined.ToldMember as told_member;

    ghost Value = { List ToldMember };

    ghost coded = { coded_list told_member.the_row.coded };

    ghost view = { λ a. a.told.value };
}

impl SharedMembers {
    /// This; `NoMemory` where memory is wanting.
    pub(crate) fn new(alloc: Global, told: Sequence<ToldMember>) -> Result<SharedMembers, NoMemory>
        ensures { IfOk result (λ made. made ≡ told) }
    {
        Ok(SharedMembers {
            told: Rc::new(alloc, told)?,
        })
    }

    /// What it holds; `None` only where it is shared.
    pub(crate) fn into_inner(self) -> Option<Sequence<ToldMember>>
        ensures { IfSome result (λ told. told ≡ self) }
    {
        let SharedMembers { told } = self;
        Rc::into_inner(told)
    }
}

/// What the children of a flex container told for its block size, as it keeps it longer than its answers.
#[derive(Drop)]
pub struct SharedAlong {
    kept: Rc<KeptAlong>,
}

impl Model for SharedAlong {
    ghost use Rattle.placing.specs.declared.lined.KeptAlong.{KeptAlong};
    ghost use Rattle.placing.specs.contracts.lined.KeptAlong as kept_along;

    ghost Value = { KeptAlong };

    ghost coded = { kept_along.the_row.coded };

    ghost view = { λ a. a.kept.value };
}

impl SharedAlong {
    /// This; `NoMemory` where memory is wanting.
    pub(crate) fn new(alloc: Global, kept: KeptAlong) -> Result<SharedAlong, NoMemory>
        ensures { IfOk result (λ made. made ≡ kept) }
    {
        Ok(SharedAlong {
            kept: Rc::new(alloc, kept)?,
        })
    }

    /// What it holds; `None` only where it is shared.
    pub(crate) fn into_inner(self) -> Option<KeptAlong>
        ensures { IfSome result (λ kept. kept ≡ self) }
    {
        let SharedAlong { kept } = self;
        Rc::into_inner(kept)
    }
}

/// What a container keeps longer than its answers.
#[derive(Drop)]
pub struct Past {
    /// The contexts of a grid and the areas of its children.
    pub bases: Bases,
    /// What the children of a grid told last for its inline sizes.
    pub columns: Option<SharedColumns>,
    /// What its children told last for its block size.
    pub wide: Option<SharedTold>,
    /// The frames that it gave its children last.
    pub frames: Option<SharedLast>,
    /// What the children of a flex container told last for its inline sizes.
    pub members: Option<SharedMembers>,
    /// What they told last for its block size.
    pub along: Option<SharedAlong>,
}

impl Past {
    /// Nothing. It takes no memory.
    pub fn new() -> Past
        ensures { result ≡ no_past }
    {
        Past {
            bases: Bases::new(),
            columns: None,
            wide: None,
            frames: None,
            members: None,
            along: None,
        }
    }

    /// Lets all go.
    pub(crate) fn clear(&mut self)
        ensures { self.new ≡ no_past }
    {
        self.bases.clear();
        self.columns = None;
        self.wide = None;
        self.frames = None;
        self.members = None;
        self.along = None;
    }
}
