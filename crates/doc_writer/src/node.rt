//! The line of a node.
#![tactic(auto, using(crate::proofs::Kept::adding))]

ghost use Rattle.std.specs.Prelude.{◌≡◌, ◌≤◌, false, List, OnOk, IfOk};
ghost use Rattle.std.specs.FinMap as map;
ghost use Rattle.doc_writer.specs.Documents.{px_words, content_words, kind_words, declaration_words, Setting, settings_of, with_value, mark_before, close_after, declarations, style_words, node_words, indent};
ghost use Rattle.doc_writer.specs.Spaces.{put};

use crate::line::LineText;
use crate::property::{PROPERTIES, property_word};
use crate::value::write_value;
use doc_text::{Kind, Plain};
use lunit::{Lu, NoMemory};
use part_rules::Content;
use std::alloc::Global;
use style_types::{Declared, DeclaredValue, Prop};

#[tactic(auto, using(crate::proofs::Kept::adding, crate::proofs::Lists::px))]
fn write_sizes(line: &mut LineText, sizes: &[Lu]) -> Result<(), NoMemory>
    ensures { OnOk result (line.new ≡ put line.old (px_words sizes.now)) }
{
    for size in sizes {
        line.px(*size)?;
    }
    Ok(())
}

fn write_content(line: &mut LineText, content: &Content) -> Result<(), NoMemory>
    ensures { OnOk result (line.new ≡ put line.old (content_words content.now)) }
{
    match content {
        Content::Fixed { width, height } => {
            line.word(b"leaf")?;
            line.px(*width)?;
            line.px(*height)
        }
        Content::Words {
            line: height,
            space,
            words,
        } => {
            line.word(b"words")?;
            line.px(*height)?;
            line.px(*space)?;
            write_sizes(line, words.as_slice())
        }
    }
}

fn write_kind(line: &mut LineText, kind: &Kind) -> Result<(), NoMemory>
    ensures { OnOk result (line.new ≡ put line.old (kind_words kind.now)) }
{
    match kind {
        Kind::Grid => line.word(b"grid"),
        Kind::Flex => line.word(b"flex"),
        Kind::Leaf(content) => write_content(line, content),
    }
}

fn write_declaration(
    line: &mut LineText,
    alloc: Global,
    p: Prop,
    value: &DeclaredValue,
) -> Result<(), NoMemory>
    ensures { OnOk result (line.new ≡ put line.old (declaration_words p value.now)) }
{
    line.word(property_word(p))?;
    line.word(b":")?;
    write_value(line, alloc, value)
}

/// What stands before a declaration.
fn mark_before(some: bool) -> &'static [u8]
    ensures { result.now ≡ mark_before some }
{
    if some { b";" } else { b"{" }
}

/// Adds the declaration of the property, where the style has one. Gives whether some declaration
/// was added, then or before.
fn write_setting(
    line: &mut LineText,
    alloc: Global,
    style: &Declared,
    p: Prop,
    some: bool,
) -> Result<bool, NoMemory>
    ensures { IfOk result
        (λ more. (settings : List Setting) →
        put line.new (declarations more settings) ≡
        put line.old (declarations some (with_value p (map.get style.now p) settings))) }
{
    match style.get(p) {
        Some(value) => {
            line.word(mark_before(some))?;
            write_declaration(line, alloc, p, value)?;
            Ok(true)
        }
        None => Ok(some),
    }
}

fn write_close(line: &mut LineText, some: bool) -> Result<(), NoMemory>
    ensures { OnOk result (line.new ≡ put line.old (close_after some)) }
{
    if some { line.word(b"}") } else { Ok(()) }
}

#[tactic(auto, using(crate::proofs::Kept::adding, crate::proofs::Lists::settings))]
/// Adds the declarations of these properties, and gives whether there are some.
fn write_settings(
    line: &mut LineText,
    alloc: Global,
    style: &Declared,
    properties: &[Prop],
) -> Result<bool, NoMemory>
    ensures { IfOk result
        (λ some. put line.new (close_after some) ≡
        put line.old (declarations false (settings_of (map.get style.now) properties.now))) }
{
    let mut some = false;
    for p in properties {
        some = write_setting(line, alloc, style, *p, some)?;
    }
    Ok(some)
}

/// Adds the declarations of the node in braces.
fn write_style(line: &mut LineText, alloc: Global, style: &Declared) -> Result<(), NoMemory>
    ensures { OnOk result (line.new ≡ put line.old (style_words (map.get style.now))) }
{
    let some = write_settings(line, alloc, style, &PROPERTIES)?;
    write_close(line, some)
}

/// Makes the line that of the node on this level, counted from 0.
pub(crate) fn write_node(
    line: &mut LineText,
    alloc: Global,
    level: usize,
    node: &Plain,
) -> Result<(), NoMemory>
    requires { level ≤ 64 }
    ensures { OnOk result
        (line.new ≡
        put (indent level) (node_words node.now.name node.now.kind (map.get node.now.style))) }
{
    line.start(level)?;
    line.word(node.name.bytes())?;
    write_kind(line, &node.kind)?;
    write_style(line, alloc, &node.style)
}
