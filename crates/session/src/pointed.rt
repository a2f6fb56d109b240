//! The boxes of a document, to be found by points.

ghost use Rattle.std.specs.Prelude.{◌≡◌, ◌<◌, ◌^◌, length, IfOk};
ghost use Rattle.std.specs.List.{All};
ghost use Rattle.box_layout.specs.LastBoxes.{AreFound};
ghost use Rattle.page_tree.specs.Pages.{document_of};
ghost use Rattle.placing.specs.Kept.{kept_at};
ghost use Rattle.placing.specs.Nodes.{bare};
ghost use Rattle.session.specs.Boxes.{boxes_of};
ghost use Rattle.session.specs.Hits.{box_under};
ghost use Rattle.session.specs.Printing.{IsPrintableBox};
ghost use Rattle.session.specs.Standing.{IsLaidBy, IsSound};

use box_layout::{BoxList, LastBoxes, RootFrame};
use hit_index::HitIndex;
use lunit::{Along, Lu, Name, NoMemory, Rect, Sequence, Steps};
use page_tree::Page;
use std::alloc::Global;
use std::marker::Model;
use std::sync::ledger::Ledger;

/// The boxes of a document, with their index. Contracts see the boxes.
#[derive(Drop)]
pub(crate) struct PointedBoxes {
    boxes: Sequence<(Name, Rect)>,
    index: HitIndex,
}

impl Model for PointedBoxes {
    ghost use Rattle.std.specs.Prelude.{List};
    ghost use Rattle.session.specs.Printing.{Box};

    ghost Value = { List Box };

    ghost use Rattle.std.specs.Prelude.{◌≡◌, map};

    ghost view = { λ a. a.boxes };

    ghost invariant = { λ a. a.index ≡ map (λ box. box.1) a.boxes };
}

impl PointedBoxes {
    #[tactic(auto, using(crate::proofs::Points::pointing))]
    /// These boxes, in document order. Or `NoMemory`.
    pub(crate) fn new(
        alloc: Global,
        boxes: Sequence<(Name, Rect)>,
    ) -> Result<PointedBoxes, NoMemory>
        requires few { length boxes < 2 ^ 32 }
        requires printable { All IsPrintableBox boxes }
        ensures { IfOk result (λ made. made ≡ boxes) }
    {
        let index = HitIndex::build(alloc, boxes.as_slice())?;
        Ok(PointedBoxes { boxes, index })
    }

    /// The name of the last box that contains the point; none where no box does. Takes no memory.
    pub(crate) fn under(&self, x: Lu, y: Lu) -> Option<Name>
        ensures { result ≡ box_under self.now x y }
    {
        let number = self.index.hit(Along::of(x.units()), Along::of(y.units()))?;
        let (name, _) = self.boxes.as_slice()[number as usize];
        Some(name)
    }
}

/// The boxes of a document that was laid out, by what its containers keep of that. Nothing is asked
/// anew, and nothing changes. Or `NoMemory`.
pub(crate) fn kept_boxes<L: Ledger>(
    page: &mut Page,
    root: &RootFrame,
    last: &mut LastBoxes,
    passes: &mut Steps<L>,
) -> Result<PointedBoxes, NoMemory>
    requires sound { IsSound page.old }
    requires last { AreFound (bare page.old.nodes.tree) (kept_at page.old.nodes.tree) last.old }
    requires laid { IsLaidBy page.old root.now }
    ensures boxes { IfOk result (λ boxes. boxes ≡ boxes_of (document_of page.old)) }
    ensures same { page.new ≡ page.old }
    ensures last { AreFound (bare page.new.nodes.tree) (kept_at page.new.nodes.tree) last.new }
    ensures passes { passes.new ≡ passes.old }
{
    let alloc = page.alloc();
    let mut list = BoxList::new(alloc);
    page.kept_boxes(root, &mut list, last, passes)?;
    PointedBoxes::new(alloc, Sequence::from_vec(list.boxes))
}
