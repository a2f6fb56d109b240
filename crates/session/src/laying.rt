//! One layout of a held document.

ghost use Rattle.std.specs.Prelude.{◌≡◌, List, Option, IfOk, OnOk, OnErr};
ghost use Rattle.box_layout.specs.Paths.{IsAllKept, IsPathKept};
ghost use Rattle.box_layout.specs.LastBoxes.{AreFound};
ghost use Rattle.placing.specs.Kept.{kept_at};
ghost use Rattle.placing.specs.Nodes.{bare};
ghost use Rattle.placing.specs.Walks.{state};
ghost use Rattle.std.specs.List.{All};
ghost use Rattle.outside.specs.declared.event.Event.{Event};
ghost use Rattle.sparing.specs.Sparing.{Touches};
ghost use Rattle.session.specs.Spares.{SparesPage, SparesAfter};
ghost use Rattle.session.specs.Boxes.{boxes_of};
ghost use Rattle.page_tree.specs.Pages.{document_of};
ghost use Rattle.session.specs.Laying.{Measures, KeepsMore, Keeps, WalksPage};
ghost use Rattle.session.specs.Printing.{IsPrintableBox};
ghost use Rattle.session.specs.Standing.{IsLaidBy, IsSound};

use asked_pages::layouts_of_pages;
use box_layout::{BoxSink, LastBoxes, RootFrame};
use lunit::{NoMemory, Steps};
use outside::{Ruler, Tally};
use page_tree::Page;
use std::sync::ledger::Ledger;

/// Lays a document out and hands its boxes over. Its values stay as they are, and every answer that
/// a node keeps stays right, after want of memory too.
pub(crate) fn lay_out<T: BoxSink, R: Ruler, L: Ledger>(
    page: &mut Page,
    told: &mut T,
    last: &mut LastBoxes,
    ruler: &mut R,
    tally: &mut Tally,
    passes: &mut Steps<L>,
) -> Result<RootFrame, NoMemory>
    requires sound { IsSound page.old }
    requires last { AreFound (bare page.old.nodes.tree) (kept_at page.old.nodes.tree) last.old }
    ensures sound { IsSound page.new }
    ensures last { AreFound (bare page.new.nodes.tree) (kept_at page.new.nodes.tree) last.new }
    ensures document { document_of page.new ≡ document_of page.old }
    ensures root { IfOk result (λ root. IsLaidBy page.new root) }
    ensures boxes { OnOk result (T.adds told.old told.new (boxes_of (document_of page.old))) }
    ensures printable { OnOk result (All IsPrintableBox (boxes_of (document_of page.old))) }
    ensures measures { Measures (document_of page.old) (R.log ruler.old) (R.log ruler.new)
        tally.old.measured tally.new.measured }
    ensures keeps { OnOk result
        (Keeps page.old page.new tally.old.added tally.new.added passes.old passes.new) }
    ensures keeps_some { OnErr result (KeepsMore page.old page.new) }
    ensures walked { OnOk result
        (WalksPage page.old page.new tally.old tally.new passes.old passes.new (R.log ruler.old)
        (R.log ruler.new)) }
    ensures paths { OnOk result
        (IsPathKept (bare page.old.nodes.tree) page.old.width page.old.height
        (state page.new.nodes tally.new passes.new (R.log ruler.new))) }
    ensures quiet { IsAllKept (bare page.old.nodes.tree) page.old.width page.old.height
        (state page.old.nodes tally.old passes.old (R.log ruler.old)) →
        state page.new.nodes tally.new passes.new (R.log ruler.new) ≡
        state page.old.nodes tally.old passes.old (R.log ruler.old) }
    ensures spares { (touches : Touches) (before : Option (List Event)) →
        SparesPage touches before (R.log ruler.old) page.old →
        SparesAfter touches before (R.log ruler.new) page.new result }
{
    let _ = page.tree().root();
    layouts_of_pages(page);
    page.lay_out(told, last, ruler, tally, passes)
}
