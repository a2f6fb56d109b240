//! The run under `make`: a generated document is laid out, and after each of its edits again.

ghost use Rattle.std.specs.Prelude.{◌≡◌, ◌<◌, ◌≤◌, ◌∷◌, [], ℕ, List, Option, Ok, Err, IfOk, IfErr, OnOk, OnErr};
ghost use Rattle.std.specs.List.{All};
ghost use Rattle.outside.specs.Faults.{HasCauseOf};
ghost use Rattle.outside.specs.Told.{Adds, AddsPrefix};
ghost use Rattle.outside.specs.declared.event.Event.{Event};
ghost use Rattle.sparing.specs.Sparing.{Touches};
ghost use Rattle.doc_text.specs.Edits.{applied, edited};
ghost use Rattle.doc_text.specs.Laws.{IsChange, NamesItsNode};
ghost use Rattle.page_maker.specs.Scripts.{edit_from};
ghost use Rattle.page_maker.specs.Standing.{IsMade};
ghost use Rattle.asked_pages.specs.Leaves.{IsEmptied};
ghost use Rattle.page_tree.specs.Reach.{is_touched};
ghost use Rattle.session.specs.Boxes.{boxes_of};
ghost use Rattle.session.specs.Engine.{IsToldEdit, Spreads};
ghost use Rattle.session.specs.Logs.{Logs, LogsFront};
ghost use Rattle.session.specs.Made.{AgreesDraw, AgreeDraws, HasMade, TellsLayouts, made_layouts, made_line, layouts_left, lines_left, summary, touched_made};
ghost use Rattle.session.specs.Printing.{IsPrintableBox};
ghost use Rattle.session.specs.Replies.{is_new};
ghost use Rattle.session.specs.Runs.{StopsWriting};
ghost use Rattle.session.specs.Spares.{Spares, SparesAfter, SparesDue, SparesPage};
ghost use Rattle.session.specs.Standing.{doc_of};

use crate::Status;
use crate::answer::write;
use crate::engine::Engine;
use crate::stats::{append, append_count};
use doc_text::Edit;
use lunit::{Name, NoMemory, Rect, Steps};
use outside::{Ruler, Sink};
use page_maker::{Draws, checksum, make_document, next_edit};
use page_tree::EditError;
use std::alloc::Global;
use std::sync::ledger::Ledger;

#[tactic(auto, using(crate::proofs::Making::small_boxes), unfolding(crate::specs::Made::made_line))]
/// The line `made k C S` of these boxes: C is their number, and S the sum of x + 3y + 5 * width + 7
/// * height in units of 1/64 px over all of them, modulo 2^64 and at least 0.
fn line_of(alloc: Global, k: u32, boxes: &[(Name, Rect)]) -> Result<Vec<u8>, NoMemory>
    requires { All IsPrintableBox boxes.now }
    ensures { IfOk result (λ text. text.items ≡ made_line k boxes.now) }
{
    let mut out = Vec::new(alloc);
    append(&mut out, b"made ")?;
    append_count(&mut out, k as u64)?;
    append(&mut out, b" ")?;
    append_count(&mut out, boxes.len() as u64)?;
    append(&mut out, b" ")?;
    append_count(&mut out, checksum(boxes))?;
    append(&mut out, b"\n")?;
    Ok(out)
}

/// The line of the layout of an engine, with the number k.
fn layout_line<R: Ruler, L: Ledger>(
    alloc: Global,
    engine: &mut Engine,
    k: u32,
    ruler: &mut R,
    passes: &mut Steps<L>,
) -> Result<Vec<u8>, NoMemory>
    ensures text { IfOk result (λ text. text.items ≡ made_line k (boxes_of (doc_of engine.old))) }
    ensures log { OnOk result
        (Logs (R.log ruler.old) (R.log ruler.new) k (Ok (doc_of engine.old) ∷ [])) }
    ensures stopped { OnErr result
        (LogsFront (R.log ruler.old) (R.log ruler.new) k (Ok (doc_of engine.old) ∷ [])) }
    ensures layouts { (touches : Touches) → IsEmptied (is_new touches k) engine.old.page →
        OnOk result
        (TellsLayouts touches (R.log ruler.old) (R.log ruler.new) passes.old passes.new k
        (Ok (doc_of engine.old) ∷ [])) }
    ensures document { doc_of engine.new ≡ doc_of engine.old }
    ensures spares { (touches : Touches) (before : Option (List Event)) →
        SparesDue touches before (R.log ruler.old) k engine.old.page →
        SparesAfter touches before (R.log ruler.new) engine.new.page result }
{
    let layout = engine.layout(k, ruler, passes)?;
    line_of(alloc, k, layout.boxes.as_slice())
}

#[tactic(auto, using(outside::proofs::Laws::adding))]
/// Lays the document out, with the number k, and writes its line.
fn write_line<K: Sink, R: Ruler, L: Ledger>(
    alloc: Global,
    engine: &mut Engine,
    k: u32,
    sink: &mut K,
    ruler: &mut R,
    passes: &mut Steps<L>,
) -> Result<(), Status>
    ensures ok { OnOk result
        (Adds (K.written sink.old) (K.written sink.new)
        (made_line k (boxes_of (doc_of engine.old)))) }
    ensures err { OnErr result
        (AddsPrefix (K.written sink.old) (K.written sink.new)
        (made_line k (boxes_of (doc_of engine.old)))) }
    ensures log { OnOk result
        (Logs (R.log ruler.old) (R.log ruler.new) k (Ok (doc_of engine.old) ∷ [])) }
    ensures stopped { OnErr result
        (LogsFront (R.log ruler.old) (R.log ruler.new) k (Ok (doc_of engine.old) ∷ [])) }
    ensures layouts { (touches : Touches) → IsEmptied (is_new touches k) engine.old.page →
        OnOk result
        (TellsLayouts touches (R.log ruler.old) (R.log ruler.new) passes.old passes.new k
        (Ok (doc_of engine.old) ∷ [])) }
    ensures document { doc_of engine.new ≡ doc_of engine.old }
    ensures spares { (touches : Touches) (before : Option (List Event)) →
        SparesDue touches before (R.log ruler.old) k engine.old.page →
        SparesAfter touches before (R.log ruler.new) engine.new.page result }
    ensures stops { IfErr result StopsWriting }
    ensures cause { HasCauseOf (K.faults sink.old) (K.faults sink.new)
        (result ≡ Err Status.WriteFault) }
{
    let text = layout_line(alloc, engine, k, ruler, passes)?;
    write(sink, &text)
}

#[tactic(auto, using(crate::proofs::Applying::making))]
/// Applies an edit that is not refused.
fn apply(engine: &mut Engine, edit: Edit) -> Result<(), NoMemory>
    requires change { IsChange edit }
    requires named { NamesItsNode edit }
    requires told { IsToldEdit (doc_of engine.old).version edit }
    requires accepted { edited edit (doc_of engine.old) ≡ Ok (applied edit (doc_of engine.old)) }
    ensures document { OnOk result (doc_of engine.new ≡ applied edit (doc_of engine.old)) }
    ensures spreads { OnOk result
        (Spreads (is_touched edit (doc_of engine.old) (doc_of engine.new)) engine.old.page
        engine.new.page) }
{
    match engine.apply(edit) {
        Ok(()) => Ok(()),
        Err(EditError::Refused(_)) => unreachable!(),
        Err(EditError::NoMemory) => Err(NoMemory),
    }
}

/// Draws the next edit and applies it.
fn edit_once(
    alloc: Global,
    engine: &mut Engine,
    draws: &mut Draws,
    nodes: usize,
) -> Result<(), NoMemory>
    requires some { 0 < nodes }
    requires few { nodes ≤ 20000 }
    requires made { IsMade nodes (doc_of engine.old) }
    ensures document { OnOk result
        (doc_of engine.new ≡ applied (edit_from nodes draws.old.state).0 (doc_of engine.old)) }
    ensures state { OnOk result (draws.new.state ≡ (edit_from nodes draws.old.state).1) }
    ensures made { OnOk result (IsMade nodes (doc_of engine.new)) }
    ensures emptied { (touches : Touches) (k : ℕ) → 1 ≤ k →
        AgreesDraw touches k nodes (doc_of engine.old) draws.old.state →
        OnOk result (IsEmptied (is_new touches k) engine.new.page) }
    ensures spares { (touches : Touches) (before log : Option (List Event)) (k : ℕ) →
        AgreesDraw touches k nodes (doc_of engine.old) draws.old.state →
        SparesPage touches before log engine.old.page →
        OnOk result (SparesDue touches before log k engine.new.page) }
{
    let edit = next_edit(alloc, draws, nodes)?;
    apply(engine, edit)
}

#[tactic(auto, using(crate::proofs::Making::left_laws, outside::proofs::Laws::adding))]
/// Draws the eight edits, and writes the line of each layout after them.
fn write_edits<K: Sink, R: Ruler, L: Ledger>(
    alloc: Global,
    engine: &mut Engine,
    draws: &mut Draws,
    nodes: usize,
    sink: &mut K,
    ruler: &mut R,
    passes: &mut Steps<L>,
) -> Result<(), Status>
    requires some { 0 < nodes }
    requires few { nodes ≤ 20000 }
    requires made { IsMade nodes (doc_of engine.old) }
    ensures ok { OnOk result
        (Adds (K.written sink.old) (K.written sink.new)
        (lines_left 8 nodes (doc_of engine.old) draws.old.state)) }
    ensures err { OnErr result
        (AddsPrefix (K.written sink.old) (K.written sink.new)
        (lines_left 8 nodes (doc_of engine.old) draws.old.state)) }
    ensures log { OnOk result
        (Logs (R.log ruler.old) (R.log ruler.new) 1
        (layouts_left 8 nodes (doc_of engine.old) draws.old.state)) }
    ensures stopped { OnErr result
        (LogsFront (R.log ruler.old) (R.log ruler.new) 1
        (layouts_left 8 nodes (doc_of engine.old) draws.old.state)) }
    ensures layouts { (touches : Touches) →
        AgreeDraws touches 8 1 nodes (doc_of engine.old) draws.old.state →
        OnOk result
        (TellsLayouts touches (R.log ruler.old) (R.log ruler.new) passes.old passes.new 1
        (layouts_left 8 nodes (doc_of engine.old) draws.old.state)) }
    ensures spares { (touches : Touches) (before : Option (List Event)) →
        AgreeDraws touches 8 1 nodes (doc_of engine.old) draws.old.state →
        SparesPage touches before (R.log ruler.old) engine.old.page →
        Spares touches before (R.log ruler.new) }
    ensures stops { IfErr result StopsWriting }
    ensures cause { HasCauseOf (K.faults sink.old) (K.faults sink.new)
        (result ≡ Err Status.WriteFault) }
{
    for k in 1..9 {
        edit_once(alloc, engine, draws, nodes)?;
        write_line(alloc, engine, k, sink, ruler, passes)?;
    }
    Ok(())
}

#[tactic(auto, using(crate::proofs::Making::summary_laws))]
/// Lays out the document of so many nodes that is drawn from a seed, and again after each of its
/// eight edits, and writes the line of each layout.
fn write_summary<K: Sink, R: Ruler, L: Ledger>(
    alloc: Global,
    seed: u64,
    nodes: usize,
    sink: &mut K,
    ruler: &mut R,
    passes: &mut Steps<L>,
) -> Result<(), Status>
    requires some { 0 < nodes }
    requires few { nodes ≤ 20000 }
    ensures ok { OnOk result (Adds (K.written sink.old) (K.written sink.new) (summary seed nodes)) }
    ensures err { OnErr result
        (AddsPrefix (K.written sink.old) (K.written sink.new) (summary seed nodes)) }
    ensures log { OnOk result
        (Logs (R.log ruler.old) (R.log ruler.new) 0 (made_layouts seed nodes)) }
    ensures stopped { OnErr result
        (LogsFront (R.log ruler.old) (R.log ruler.new) 0 (made_layouts seed nodes)) }
    ensures layouts { OnOk result
        (TellsLayouts (touched_made seed nodes) (R.log ruler.old) (R.log ruler.new) passes.old
        passes.new 0 (made_layouts seed nodes)) }
    ensures spares { Spares (touched_made seed nodes) (R.log ruler.old) (R.log ruler.new) }
    ensures stops { IfErr result StopsWriting }
    ensures cause { HasCauseOf (K.faults sink.old) (K.faults sink.new)
        (result ≡ Err Status.WriteFault) }
{
    let (doc, mut draws) = make_document(alloc, seed, nodes)?;
    let mut engine = Engine::new(alloc, doc)?;
    write_line(alloc, &mut engine, 0, sink, ruler, passes)?;
    write_edits(alloc, &mut engine, &mut draws, nodes, sink, ruler, passes)
}

/// The run under `make`: writes the line `made k C S` of the document that is drawn from the seed,
/// with the number 0, and of each of its eight edits. Nothing is read.
pub(crate) fn make<K: Sink, R: Ruler, L: Ledger>(
    alloc: Global,
    seed: u64,
    nodes: usize,
    sink: &mut K,
    ruler: &mut R,
    passes: &mut Steps<L>,
) -> Status
    requires some { 0 < nodes }
    requires few { nodes ≤ 20000 }
    ensures made { HasMade seed nodes (K.written sink.old) (K.written sink.new) (R.log ruler.old)
        (R.log ruler.new) passes.old passes.new (K.faults sink.old) (K.faults sink.new) result }
    ensures cause { HasCauseOf (K.faults sink.old) (K.faults sink.new)
        (result ≡ Status.WriteFault) }
{
    match write_summary(alloc, seed, nodes, sink, ruler, passes) {
        Ok(()) => Status::Done,
        Err(status) => status,
    }
}
