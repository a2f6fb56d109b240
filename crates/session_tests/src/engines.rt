//! What calls of an engine answer where there is memory.

ghost use Rattle.std.specs.Prelude.{IfOk, OnOk};
ghost use Rattle.doc_text.specs.Valid.{AreShort};

use doc_text::{Edit, Named, read_doc};
use lunit::{Name, NoMemory, Sequence};
use session::Engine;
use std::alloc::Global;
use std::process::Abort;
use std::test::Fail;
use text_scan::{Line, Place};

static LINES: &[&[u8]] = &[
    b"gridlay 1",
    b"viewport 100 50",
    b"main flex",
    b"  a leaf 20 10",
    b"  b flex",
    b"    x leaf 5 5",
    b"  c leaf 10 10",
];

/// Each is removed, in this order.
static REMOVED: &[&[u8]] = &[b"b", b"c", b"a"];

pub(crate) const AT: Place = Place { line: 8, column: 1 };

#[tactic(auto, using(crate::proofs::Readied::short_more))]
/// Adds a line without a fault.
fn add_line(alloc: Global, lines: &mut Sequence<Line>, text: &[u8]) -> Result<(), Fail>
    requires { AreShort lines.old }
    ensures { OnOk result (AreShort lines.new) }
{
    if text.len() > 65_536 {
        return Err(Fail::new("a line that is too long"));
    }
    let number = u32::try_from(lines.len())?.saturating_add(1);
    let bytes = Sequence::from_slice(alloc, text)?;
    lines.push(Line {
        number,
        bytes,
        fault: None,
    })?;
    Ok(())
}

fn lines(alloc: Global) -> Result<Sequence<Line>, Fail>
    ensures { IfOk result (λ lines. AreShort lines) }
{
    let mut lines = Sequence::new(alloc);
    for line in LINES {
        add_line(alloc, &mut lines, line)?;
    }
    Ok(lines)
}

/// The document after all three were removed.
pub(crate) fn emptied(alloc: Global) -> Result<Engine, Fail> {
    let lines = lines(alloc)?;
    let doc = read_doc(alloc, lines.as_slice(), AT)?;
    let mut engine = Engine::new(alloc, doc)?;
    for name in REMOVED {
        let name = Name::read(name)?;
        engine.apply(Edit::Remove(Named { name, at: AT }))?;
    }
    Ok(engine)
}

/// How many children the root has.
fn children(engine: &Engine) -> Result<usize, NoMemory> {
    let doc = engine.doc()?;
    Ok(doc.root.children.len())
}

#[test]
fn an_engine_gives_its_document(rt: HostRuntime) -> Result<(), Fail> {
    let engine = emptied(rt.alloc())?;
    assert_eq!(rt; children(&engine)?, 0);
    Ok(())
}

#[test]
fn edits_are_taken_back_at_once(rt: HostRuntime) -> Result<(), Fail> {
    let mut engine = emptied(rt.alloc())?;
    engine.apply(Edit::Undo(3, AT))?;
    assert_eq!(rt; children(&engine)?, 3);
    Ok(())
}
