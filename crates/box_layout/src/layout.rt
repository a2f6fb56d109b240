//! The boxes of a whole tree in a viewport.

ghost use Rattle.std.specs.Prelude.{◌≡◌, [], false, if◌then◌else◌, IfOk, OnOk, OnErr};
ghost use Rattle.placing.specs.Kept.{kept_at, IsRight};
ghost use Rattle.placing.specs.Nodes.{bare};
ghost use Rattle.placing.specs.Ranges.{AreReadable};
ghost use Rattle.placing.specs.Walks.{state, Walk};
ghost use Rattle.walker.specs.Walkers.{nodes, seen, SameParts, Stands};
ghost use Rattle.box_layout.specs.Boxed.{SameSinks, StillFound};
ghost use Rattle.box_layout.specs.BoxesSeen.{AreNear, bare_boxes};
ghost use Rattle.box_layout.specs.FoundRoots.{IsRootFrame};
ghost use Rattle.box_layout.specs.LastBoxes.{AreFound};
ghost use Rattle.box_layout.specs.LeafHeights.{AreMeasured};
ghost use Rattle.box_layout.specs.Paths.{IsAllKept, IsAsked, IsCutShort, IsPathKept, kept_state};

use crate::last_boxes::LastBoxes;
use crate::root_frame::root_frame;
use crate::spot::{Boxes, Spot};
use crate::told::BoxSink;
use crate::walk::boxes_of;
use lunit::{Along, Area, Lu, NoMemory, Span, Steps};
use node_arena::Arena;
use outside::{Ruler, Tally, WordRuler};
use placing::{Above, Frame, Node, root};
use std::alloc::Global;
use std::sync::ledger::Ledger;
use walker::{Seat, Walker};

/// The frame of the root of a tree in a viewport, as laying the tree out finds it.
#[derive(Drop)]
pub struct RootFrame {
    /// The width of the viewport, in units of 1/64 px.
    pub width: Lu,
    /// Its height.
    pub height: Lu,
    /// What the root is given there, and its border box.
    pub frame: Frame,
}

/// No area.
const NO_AREA: Area = Area {
    columns: Span { start: 0, end: 0 },
    rows: Span { start: 0, end: 0 },
};

/// Hands over the name and the border box of each node of a tree in a viewport of this width and height, in units of 1/64 px from the
/// origin of the viewport, in document order (CSS Grid 2, section 6; CSS Flexbox 1, section 9; that the root is an item in the viewport is
/// an own rule). No number of a box is beyond 2^56.
///
/// Each container is asked once for its frames; the answers that the nodes keep are taken as they are, and what is found is kept. Each
/// leaf among the children of a grid whose frames are found then keeps its block size at the content width of its box. Where all of
/// that is kept, nothing changes. The boxes of containers that have few below them are taken as they were found last, moved with these,
/// where they still hold, and kept where not; once an answer went since its list was full, none of them are. Answers the frame that was
/// found for the root; `NoMemory` where memory is wanting: what was kept by then is right.
pub fn walk_boxes<T: BoxSink, R: Ruler, L: Ledger>(
    alloc: Global,
    tree: &mut Arena<Node>,
    viewport: (Lu, Lu),
    told: &mut T,
    last: &mut LastBoxes,
    ruler: &mut R,
    tally: &mut Tally,
    passes: &mut Steps<L>,
) -> Result<RootFrame, NoMemory>
    requires right { IsRight tree.old.tree }
    requires readable { AreReadable (bare tree.old.tree) }
    requires last { AreFound (bare tree.old.tree) (kept_at tree.old.tree) last.old }
    ensures root { IfOk result
        (λ root. IsRootFrame (bare tree.old.tree) viewport.0 viewport.1 root) }
    ensures value { OnOk result
        (T.adds told.old told.new (bare_boxes viewport.0 viewport.1 (bare tree.old.tree))) }
    ensures near { OnOk result (AreNear (bare_boxes viewport.0 viewport.1 (bare tree.old.tree))) }
    ensures bare { bare tree.new.tree ≡ bare tree.old.tree }
    ensures right { IsRight tree.new.tree }
    ensures laid { OnOk result
        (Walk (IsAsked (bare tree.old.tree) viewport.0 viewport.1) 0 []
        (state tree.old tally.old passes.old (R.log ruler.old))
        (state tree.new tally.new passes.new (R.log ruler.new))) }
    ensures cut { OnErr result
        (IsCutShort (bare tree.old.tree) viewport.0 viewport.1
        (state tree.old tally.old passes.old (R.log ruler.old))
        (state tree.new tally.new passes.new (R.log ruler.new))) }
    ensures paths { OnOk result
        (IsPathKept (bare tree.old.tree) viewport.0 viewport.1
        (state tree.new tally.new passes.new (R.log ruler.new))) }
    ensures leaves { OnOk result
        (AreMeasured (bare tree.old.tree) viewport.0 viewport.1
        (state tree.old tally.old passes.old (R.log ruler.old))
        (state tree.new tally.new passes.new (R.log ruler.new))) }
    ensures quiet { IsAllKept (bare tree.old.tree) viewport.0 viewport.1
        (state tree.old tally.old passes.old (R.log ruler.old)) →
        state tree.new tally.new passes.new (R.log ruler.new) ≡
        state tree.old tally.old passes.old (R.log ruler.old) }
    ensures last { AreFound (bare tree.new.tree) (kept_at tree.new.tree) last.new }
{
    let (width, height) = viewport;
    let mut walk = Walker {
        alloc,
        tree,
        ruler,
        tally,
        passes,
    };
    let mut out = Boxes { told, last };
    lay_boxes(&mut walk, width, height, &mut out)
}

/// Hands over the boxes on a walk, as [`walk_boxes`] says.
fn lay_boxes<T: BoxSink, R: Ruler, L: Ledger>(
    walk: &mut Walker<R, L>,
    width: Lu,
    height: Lu,
    out: &mut Boxes<'_, T>,
) -> Result<RootFrame, NoMemory>
    requires stands { Stands walk.old }
    requires last { AreFound (nodes walk.old) (kept_at walk.old.tree.now.tree) out.old.last.now }
    ensures root { IfOk result (λ root. IsRootFrame (nodes walk.old) width height root) }
    ensures value { OnOk result
        (T.adds out.old.told.now out.new.told.now (bare_boxes width height (nodes walk.old))) }
    ensures near { OnOk result (AreNear (bare_boxes width height (nodes walk.old))) }
    ensures bare { nodes walk.new ≡ nodes walk.old }
    ensures stands { Stands walk.new }
    ensures parts { SameParts walk.old walk.new }
    ensures sinks { SameSinks out.old out.new }
    ensures laid { OnOk result
        (Walk (IsAsked (nodes walk.old) width height) 0 [] (seen R.log walk.old)
        (seen R.log walk.new)) }
    ensures cut { OnErr result
        (IsCutShort (nodes walk.old) width height (seen R.log walk.old) (seen R.log walk.new)) }
    ensures paths { OnOk result
        (IsPathKept (nodes walk.old) width height (seen R.log walk.new)) }
    ensures leaves { OnOk result
        (AreMeasured (nodes walk.old) width height (seen R.log walk.old) (seen R.log walk.new)) }
    ensures quiet { IsAllKept (nodes walk.old) width height (seen R.log walk.old) →
        seen R.log walk.new ≡ seen R.log walk.old }
    ensures last { AreFound (nodes walk.new) (kept_at walk.new.tree.now.tree) out.new.last.now }
{
    out.last.trim(walk.tree.len());
    let done = boxes_of_tree(walk, width, height, out);
    let_go(walk.tally, out.last);
    done
}

/// Lets go of the boxes that were found last, where an answer went since the list of those that went was full. Takes no memory.
fn let_go(tally: &Tally, last: &mut LastBoxes)
    ensures { last.new ≡ (if tally.now.lost then [] else last.old) }
{
    if tally.lost {
        last.clear();
    }
}

/// Hands over the boxes as [`walk_boxes`] does, where what was found last may not hold once an answer went since its list was full.
fn boxes_of_tree<T: BoxSink, R: Ruler, L: Ledger>(
    walk: &mut Walker<R, L>,
    width: Lu,
    height: Lu,
    out: &mut Boxes<'_, T>,
) -> Result<RootFrame, NoMemory>
    requires stands { Stands walk.old }
    requires last { AreFound (nodes walk.old) (kept_at walk.old.tree.now.tree) out.old.last.now }
    ensures root { IfOk result (λ root. IsRootFrame (nodes walk.old) width height root) }
    ensures value { OnOk result
        (T.adds out.old.told.now out.new.told.now (bare_boxes width height (nodes walk.old))) }
    ensures near { OnOk result (AreNear (bare_boxes width height (nodes walk.old))) }
    ensures bare { nodes walk.new ≡ nodes walk.old }
    ensures stands { Stands walk.new }
    ensures parts { SameParts walk.old walk.new }
    ensures sinks { SameSinks out.old out.new }
    ensures laid { OnOk result
        (Walk (IsAsked (nodes walk.old) width height) 0 [] (seen R.log walk.old)
        (seen R.log walk.new)) }
    ensures cut { OnErr result
        (IsCutShort (nodes walk.old) width height (seen R.log walk.old) (seen R.log walk.new)) }
    ensures paths { OnOk result
        (IsPathKept (nodes walk.old) width height (seen R.log walk.new)) }
    ensures leaves { OnOk result
        (AreMeasured (nodes walk.old) width height (seen R.log walk.old) (seen R.log walk.new)) }
    ensures quiet { IsAllKept (nodes walk.old) width height (seen R.log walk.old) →
        seen R.log walk.new ≡ seen R.log walk.old }
    ensures last { StillFound (nodes walk.old) walk.new out.new }
{
    let id = root(walk.tree);
    let frame = root_frame(walk, id, width, height)?;
    let x = Along::of(0);
    let y = Along::of(0);
    let nothing = &Above::Nothing;
    out.told.make_room(walk.tree.len());
    let seat = Seat {
        reps: &[],
        above: nothing,
        area: NO_AREA,
    };
    let spot = Spot {
        frame: &frame,
        x,
        y,
    };
    boxes_of(walk, id, &seat, nothing, &spot, out)?;
    Ok(RootFrame {
        width,
        height,
        frame,
    })
}

/// Hands over the boxes of a tree by the frame that a layout found for the root, where the containers still keep what they were asked for
/// then: nothing changes but what was found last.
fn boxes_again<T: BoxSink, R: Ruler, L: Ledger>(
    walk: &mut Walker<R, L>,
    root_frame: &RootFrame,
    out: &mut Boxes<'_, T>,
) -> Result<(), NoMemory>
    requires stands { Stands walk.old }
    requires none { walk.old.tally.now.lost ≡ false }
    requires last { AreFound (nodes walk.old) (kept_at walk.old.tree.now.tree) out.old.last.now }
    requires root { IsRootFrame (nodes walk.old) root_frame.now.width root_frame.now.height
        root_frame.now }
    requires kept { IsPathKept (nodes walk.old) root_frame.now.width root_frame.now.height
        (seen R.log walk.old) }
    ensures value { OnOk result
        (T.adds out.old.told.now out.new.told.now
        (bare_boxes root_frame.now.width root_frame.now.height (nodes walk.old))) }
    ensures near { OnOk result
        (AreNear (bare_boxes root_frame.now.width root_frame.now.height (nodes walk.old))) }
    ensures parts { SameParts walk.old walk.new }
    ensures sinks { SameSinks out.old out.new }
    ensures same { walk.new.tree.now ≡ walk.old.tree.now }
    ensures passes { walk.new.passes.now ≡ walk.old.passes.now }
    ensures last { AreFound (nodes walk.new) (kept_at walk.new.tree.now.tree) out.new.last.now }
{
    let id = root(walk.tree);
    let x = Along::of(0);
    let y = Along::of(0);
    let nothing = &Above::Nothing;
    out.told.make_room(walk.tree.len());
    let seat = Seat {
        reps: &[],
        above: nothing,
        area: NO_AREA,
    };
    let spot = Spot {
        frame: &root_frame.frame,
        x,
        y,
    };
    boxes_of(walk, id, &seat, nothing, &spot, out)
}

/// Hands over the boxes of a tree as [`walk_boxes`] does, by the frame that it found for the root, where the containers still keep what
/// they were asked for then. Nothing is asked anew, and nothing changes in the tree. `NoMemory` where memory is wanting.
pub fn kept_boxes<T: BoxSink, L: Ledger>(
    alloc: Global,
    tree: &mut Arena<Node>,
    root_frame: &RootFrame,
    told: &mut T,
    last: &mut LastBoxes,
    passes: &mut Steps<L>,
) -> Result<(), NoMemory>
    requires right { IsRight tree.old.tree }
    requires readable { AreReadable (bare tree.old.tree) }
    requires last { AreFound (bare tree.old.tree) (kept_at tree.old.tree) last.old }
    requires root { IsRootFrame (bare tree.old.tree) root_frame.now.width root_frame.now.height
        root_frame.now }
    requires kept { IsPathKept (bare tree.old.tree) root_frame.now.width root_frame.now.height
        (kept_state tree.old) }
    ensures value { OnOk result
        (T.adds told.old told.new
        (bare_boxes root_frame.now.width root_frame.now.height (bare tree.old.tree))) }
    ensures near { OnOk result
        (AreNear (bare_boxes root_frame.now.width root_frame.now.height (bare tree.old.tree))) }
    ensures same { tree.new ≡ tree.old }
    ensures passes { passes.new ≡ passes.old }
    ensures last { AreFound (bare tree.new.tree) (kept_at tree.new.tree) last.new }
{
    let mut ruler = WordRuler::new();
    let mut tally = Tally::new();
    let mut walk = Walker {
        alloc,
        tree,
        ruler: &mut ruler,
        tally: &mut tally,
        passes,
    };
    let mut out = Boxes { told, last };
    boxes_again(&mut walk, root_frame, &mut out)
}
