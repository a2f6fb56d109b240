//! Documents in their canonical form.

ghost use Rattle.std.specs.Prelude.{◌≡◌, ◌+◌, ◌≤◌, ◌++◌, ◌∷◌, [], Ok, OnOk, IfOk, IfErr};
ghost use Rattle.plain_tree.specs.Trees.{height_of};
ghost use Rattle.doc_text.specs.Valid.{IsValid};
ghost use Rattle.doc_text.specs.View.{label_of, trees_of};
ghost use Rattle.doc_writer.specs.Documents.{version_words, viewport_words, line_of, lines_of, ended, with_lines, canonical, IsDue};
ghost use Rattle.doc_writer.specs.Spaces.{words_text};

use crate::errors::WriteError;
use crate::line::LineText;
use crate::node::write_node;
use doc_text::{Doc, Plain};
use lunit::{Lu, NoMemory};
use std::alloc::Global;

/// How many bytes the line of a node may have (own rule).
const LONGEST: usize = 65_536;

/// Adds a line with its line feed.
fn push_line(text: &mut Vec<u8>, line: &LineText) -> Result<(), NoMemory>
    ensures { OnOk result (text.new.items ≡ text.old.items ++ ended line.now) }
{
    text.extend_from_slice(line.as_slice())?;
    text.extend_from_slice(b"\n")?;
    Ok(())
}

#[tactic(auto, using(crate::proofs::Kept::adding, crate::proofs::Short::version_line))]
/// Adds the header line that tells the version.
fn push_version(text: &mut Vec<u8>, line: &mut LineText, version: u8) -> Result<(), NoMemory>
    ensures { OnOk result
        (text.new.items ≡ text.old.items ++ ended (words_text (version_words version))) }
{
    line.start(0)?;
    line.word(b"gridlay")?;
    line.integer(version as i64)?;
    push_line(text, line)
}

#[tactic(auto, using(crate::proofs::Kept::adding, crate::proofs::Short::viewport_line))]
/// Adds the header line that tells the size of the viewport.
fn push_viewport(
    text: &mut Vec<u8>,
    line: &mut LineText,
    width: Lu,
    height: Lu,
) -> Result<(), NoMemory>
    ensures { OnOk result
        (text.new.items ≡ text.old.items ++ ended (words_text (viewport_words width height))) }
{
    line.start(0)?;
    line.word(b"viewport")?;
    line.px(width)?;
    line.px(height)?;
    push_line(text, line)
}

#[tactic(auto, using(crate::proofs::Short::node_lines))]
/// Adds the line of a node on this level.
fn push_node(
    text: &mut Vec<u8>,
    line: &mut LineText,
    alloc: Global,
    level: usize,
    node: &Plain,
) -> Result<(), WriteError>
    requires { level ≤ 64 }
    ensures ok { OnOk result
        (with_lines text.old.items (line_of level (label_of node.now) ∷ []) ≡ Ok text.new.items) }
    ensures err { IfErr result
        (λ e. IsDue e (with_lines text.old.items (line_of level (label_of node.now) ∷ []))) }
{
    write_node(line, alloc, level, node)?;
    if line.as_slice().len() > LONGEST {
        return Err(WriteError::TooLong(node.name));
    }
    push_line(text, line)?;
    Ok(())
}

/// Adds the lines of a node on this level and of all below it.
fn push_nodes(
    text: &mut Vec<u8>,
    line: &mut LineText,
    alloc: Global,
    level: usize,
    node: &Plain,
) -> Result<(), WriteError>
    requires { level + height_of (trees_of (node.now ∷ [])) ≤ 64 }
    ensures ok { OnOk result
        (with_lines text.old.items (lines_of level (trees_of (node.now ∷ []))) ≡ Ok text.new.items) }
    ensures err { IfErr result
        (λ e. IsDue e (with_lines text.old.items (lines_of level (trees_of (node.now ∷ []))))) }
{
    push_node(text, line, alloc, level, node)?;
    for child in node.children.nodes() {
        push_nodes(text, line, alloc, level + 1, child)?;
    }
    Ok(())
}

/// Writes a document in its canonical form.
pub fn write_doc(alloc: Global, doc: &Doc) -> Result<Vec<u8>, WriteError>
    requires { IsValid doc.now }
    ensures text { IfOk result (λ text. canonical doc.now ≡ Ok text.items) }
    ensures err { IfErr result (λ e. IsDue e (canonical doc.now)) }
{
    let mut text = Vec::new(alloc);
    let mut line = LineText::new(alloc);
    push_version(&mut text, &mut line, doc.version)?;
    push_viewport(&mut text, &mut line, doc.width, doc.height)?;
    push_nodes(&mut text, &mut line, alloc, 0, &doc.root)?;
    Ok(text)
}
