//! Whole documents.

ghost use Rattle.std.specs.Prelude.{◌≡◌, ◌∷◌, [], ◌≤◌, MatchOption, IfOk};
ghost use Rattle.plain_tree.specs.Trees.{leafless};
ghost use Rattle.doc_text.specs.Valid.{IsValid, AreShort};
ghost use Rattle.track_text.specs.Gives.{Reads};
ghost use Rattle.doc_text.specs.Growth.{open_levels};
ghost use Rattle.doc_text.specs.Documents.{from_counted, version_word, version_in, sizes_in, viewport_in, header, is_indent, named_on, node_on, node_in, node_of, nodes_of, rooted, sized, document_of};

use crate::document::{Children, Doc, Plain};
use crate::growth::{DUPLICATE_NAME, Growth};
use crate::node_text::node_text;
use crate::text::{Text, fault, spaces_of};
use crate::token::{name_at, size_of_word};
use lunit::{Lu, Name};
use std::alloc::Global;
use text_scan::{Line, Place};
use track_text::ReadError;

/// The number of the fault of a header line that has not its form or is missing.
pub(crate) const BAD_HEADER: u8 = 3;

/// The number of the fault of an indentation.
pub(crate) const BAD_INDENT: u8 = 4;

/// The number of the fault of a document without a node.
pub(crate) const NO_ROOT: u8 = 16;

/// The first line that is not skipped, and the lines after it.
fn first_counted(lines: &[Line]) -> Option<(&Line, &[Line])>
    ensures { MatchOption result (from_counted lines.now ≡ [])
        (λ found. from_counted lines.now ≡ found.0.now ∷ found.1.now) }
{
    let mut left = lines;
    while let Some((line, rest)) = left.split_first() {
        if !line.is_skipped() {
            return Some((line, rest));
        }
        left = rest;
    }
    None
}

fn version_word(word: &[u8]) -> Option<u8>
    ensures { result ≡ version_word word.now }
{
    if word == b"1".as_slice() {
        Some(1)
    } else if word == b"2".as_slice() {
        Some(2)
    } else {
        None
    }
}

/// The version of the language, where the text is `gridlay 1` or `gridlay 2`.
fn version_in(text: &Text) -> Option<u8>
    ensures { result ≡ version_in text.now }
{
    let (word, _, rest) = text.first();
    let (version, _, rest) = rest.first();
    if word == b"gridlay".as_slice() && rest.is_ended() {
        version_word(version)
    } else {
        None
    }
}

/// The two sizes that the text is.
fn sizes_in(text: &Text) -> Option<(Lu, Lu)>
    ensures { result ≡ sizes_in text.now }
{
    let (width, _, rest) = text.first();
    let (height, _, rest) = rest.first();
    let width = size_of_word(width)?;
    let height = size_of_word(height)?;
    if rest.is_ended() {
        Some((width, height))
    } else {
        None
    }
}

/// The size of the viewport, where the text is `viewport W H`.
fn viewport_in(text: &Text) -> Option<(Lu, Lu)>
    ensures { result ≡ viewport_in text.now }
{
    let (word, _, rest) = text.first();
    if word == b"viewport".as_slice() {
        sizes_in(&rest)
    } else {
        None
    }
}

/// The version that the first line of a document tells.
fn read_version(line: &Line) -> Result<u8, ReadError>
    ensures { Reads result (header version_in line.now) }
{
    if let Some(fault) = line.fault {
        return Err(ReadError::Fault(fault));
    }
    let text = Text::of(line);
    let (_, at, _) = text.first();
    version_in(&text).ok_or(fault(BAD_HEADER, at))
}

/// The size of the viewport that the second line of a document tells.
fn read_viewport(line: &Line) -> Result<(Lu, Lu), ReadError>
    ensures { Reads result (header viewport_in line.now) }
{
    if let Some(fault) = line.fault {
        return Err(ReadError::Fault(fault));
    }
    let text = Text::of(line);
    let (_, at, _) = text.first();
    viewport_in(&text).ok_or(fault(BAD_HEADER, at))
}

/// The tree with a node more of this name at this place, with what stands after the name, on this
/// level. Whether the name is taken is asked when the node is put there, so that it is looked up
/// once; another fault gives way to that of the name.
fn named_on(
    alloc: Global,
    version: u8,
    level: usize,
    name: Name,
    at: Place,
    rest: &Text,
    growth: Growth,
) -> Result<Growth, ReadError>
    requires { level ≤ open_levels growth }
    ensures { Reads result (named_on version level name at rest.now growth) }
{
    match growth.standing_on(version, level, at) {
        Ok(()) => (),
        Err(error) => return Err(growth.first_fault(&name, at, error)),
    }
    let (kind, style) = match node_text(alloc, version, rest) {
        Ok(read) => read,
        Err(error) => return Err(growth.first_fault(&name, at, error)),
    };
    let node = Plain {
        name,
        kind,
        style,
        children: Children::new(alloc),
    };
    match growth.grown(level, node)? {
        Some(grown) => Ok(grown),
        None => Err(fault(DUPLICATE_NAME, at)),
    }
}

/// The tree with the node of a text more, which stands on this level.
fn node_on(
    alloc: Global,
    version: u8,
    level: usize,
    text: &Text,
    growth: Growth,
) -> Result<Growth, ReadError>
    requires { level ≤ open_levels growth }
    ensures { Reads result (node_on version level text.now growth) }
{
    let (word, at, after) = text.first();
    let (name, rest) = name_at(word, at, after)?;
    named_on(alloc, version, level, name, at, &rest, growth)
}

/// Whether so many spaces are those of a level, of which one more than these is the last.
fn is_indent(levels: usize, spaces: usize) -> bool
    ensures { result ≡ is_indent levels spaces }
{
    spaces % 2 == 0 && spaces / 2 <= levels
}

/// The tree with the node of a text more.
fn node_in(alloc: Global, version: u8, text: &Text, growth: Growth) -> Result<Growth, ReadError>
    ensures { Reads result (node_in version text.now growth) }
{
    let spaces = spaces_of(text.bytes());
    if is_indent(growth.levels(), spaces) {
        node_on(alloc, version, spaces / 2, text, growth)
    } else {
        let (_, at, _) = text.first();
        Err(fault(BAD_INDENT, at))
    }
}

/// The tree with the node of a line more.
fn node_of(alloc: Global, version: u8, line: &Line, growth: Growth) -> Result<Growth, ReadError>
    ensures { Reads result (node_of version line.now growth) }
{
    match line.fault {
        Some(fault) => Err(ReadError::Fault(fault)),
        None => node_in(alloc, version, &Text::of(line), growth),
    }
}

#[tactic(auto, using(crate::proofs::Lines::reading))]
/// The tree of the nodes of these lines.
fn read_nodes(alloc: Global, version: u8, lines: &[Line]) -> Result<Growth, ReadError>
    ensures { Reads result (nodes_of version lines.now leafless) }
{
    let mut growth = Growth::new(alloc);
    for line in lines {
        if !line.is_skipped() {
            growth = node_of(alloc, version, line, growth)?;
        }
    }
    Ok(growth)
}

/// The document of this tree, or fault 16 at the end of its text where it has no node.
fn rooted(version: u8, size: (Lu, Lu), end: Place, growth: Growth) -> Result<Doc, ReadError>
    ensures { Reads result (rooted version size end growth) }
{
    let (width, height) = size;
    match growth.root()? {
        Some(root) => Ok(Doc {
            version,
            width,
            height,
            root,
        }),
        None => Err(fault(NO_ROOT, end)),
    }
}

/// The document of the lines after the first header line.
fn read_sized(alloc: Global, version: u8, lines: &[Line], end: Place) -> Result<Doc, ReadError>
    ensures { Reads result (sized version end (from_counted lines.now)) }
{
    let Some((line, lines)) = first_counted(lines) else {
        return Err(fault(BAD_HEADER, end));
    };
    let size = read_viewport(line)?;
    let growth = read_nodes(alloc, version, lines)?;
    rooted(version, size, end, growth)
}

/// The document of the lines of a text.
fn read_headed(alloc: Global, lines: &[Line], end: Place) -> Result<Doc, ReadError>
    ensures { Reads result (document_of lines.now end) }
{
    let Some((line, lines)) = first_counted(lines) else {
        return Err(fault(BAD_HEADER, end));
    };
    let version = read_version(line)?;
    read_sized(alloc, version, lines, end)
}

#[tactic(auto, using(crate::proofs::Validity::reads_valid))]
/// Reads the lines of the text of a document, which ends at the place `end`, that of its line `---`
/// or column 1 of the line after the last (own rule).
///
/// Lines that are skipped do not count. The first line is `gridlay 1` or `gridlay 2`, which tells
/// the version of the language, the second `viewport W H`. Each further line is a node, indented by
/// two spaces for each level below the root: a name, a kind with its numbers, and declarations in
/// braces, which may be left out. Its parent is the last node before it on the level above.
///
/// The fault is that of the first line that has one: 1 or 2 where the line has one of these, and
/// else that of its leftmost part that has one, and of several there the one of the least number. 3
/// comes at a header line, 4 after the spaces of an indentation, 5 at a name that is none, 6, 12,
/// 13, 14 and 15 at a name that may not stand there, 7 at a kind, 8, 10 and 11 at a property, 9 and
/// 11 at a value, and 9 at a number or at what follows the end. What is missing is missing just
/// past the last byte that counts. Where all lines read, 3 comes at `end` where a header line is
/// missing, and else 16 there where no node is there. `NoMemory` where memory is wanting.
pub fn read_doc(alloc: Global, lines: &[Line], end: Place) -> Result<Doc, ReadError>
    ensures document { Reads result (document_of lines.now end) }
    ensures valid { AreShort lines.now → IfOk result (λ doc. IsValid doc) }
{
    read_headed(alloc, lines, end)
}
