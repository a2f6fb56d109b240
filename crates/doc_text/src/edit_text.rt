//! The lines of edits.

ghost use Rattle.std.specs.Prelude.{◌≡◌, ◌≤◌, length, position};
ghost use Rattle.std.specs.List.{position_or_len};
ghost use Rattle.track_text.specs.Gives.{Reads};
ghost use Rattle.value_text.specs.Properties.{property_of};
ghost use Rattle.doc_text.specs.Texts.{first_word};
ghost use Rattle.doc_text.specs.NodeText.{is_semicolon};
ghost use Rattle.doc_text.specs.EditText.{named_first, set_edit, props_of, props_first, unset_edit};
ghost use Rattle.doc_text.specs.EditText.{bare_node, insert_edit, remove_edit, move_edit};
ghost use Rattle.doc_text.specs.EditText.{content_edit, viewport_edit, hit_edit, undo_edit, redo_edit};
ghost use Rattle.doc_text.specs.EditText.{asked_edit, other_edit, edit_in, edit_of};
ghost use Rattle.doc_text.specs.EditText.{before_semicolon, after_semicolon};

use crate::document::{Children, Plain};
use crate::edit::{Edit, Named};
use crate::node_text::{content_first, node_text};
use crate::text::{Text, end_of, fault};
use crate::token::{index_first, name_first, position_first, size_first, times_first};
use lunit::Sequence;
use std::alloc::Global;
use style_types::Prop;
use text_scan::Line;
use track_text::{ReadError, UNSUPPORTED, is_relative};
use value_text::{Property, UNKNOWN_PROPERTY, parts_of_shorthand, property_of, read_decl};

/// The number of the fault of an edit line whose first word is that of no edit.
pub(crate) const UNKNOWN_EDIT: u8 = 20;

/// The name that comes first, with its place, and the text after it.
fn named_first<'a>(text: &Text<'a>) -> Result<(Named, Text<'a>), ReadError>
    ensures { Reads result (named_first text.now) }
{
    let (_, at, _) = text.first();
    let (name, rest) = name_first(text)?;
    Ok((Named { name, at }, rest))
}

fn first_semicolon(bytes: &[u8]) -> Option<usize>
    ensures { result ≡ position is_semicolon bytes.now }
{
    bytes.iter().position(|byte| *byte == b';')
}

#[tactic(auto, using(lunit::proofs::Numerals::found_or_length))]
/// Where the first `;` stands, or how many bytes there are.
fn semicolon_of(bytes: &[u8]) -> usize
    ensures place { result ≡ position_or_len is_semicolon bytes.now }
    ensures within { result ≤ length bytes.now }
{
    first_semicolon(bytes).unwrap_or(bytes.len())
}

/// The texts before and after the first `;`.
fn cut_at_semicolon<'a>(text: &Text<'a>) -> (Text<'a>, Text<'a>)
    ensures front { result.0 ≡ before_semicolon text.now }
    ensures back { result.1 ≡ after_semicolon text.now }
{
    let (front, back) = text.split_at(semicolon_of(text.bytes()));
    (front, back.without_first())
}

/// `set NAME property: value`, with a last `;` or without, after its first word.
fn set_edit(alloc: Global, version: u8, text: &Text) -> Result<Edit, ReadError>
    ensures { Reads result (set_edit version text.now) }
{
    let (named, text) = named_first(text)?;
    let (front, rest) = cut_at_semicolon(&text);
    let settings = read_decl(alloc, front.bytes(), front.at(), version)?;
    end_of(&rest)?;
    Ok(Edit::Set(named, settings))
}

/// The properties that a name stands for, where it names some.
fn props_of<'a>(
    alloc: Global,
    text: &Text<'a>,
    property: Option<Property>,
) -> Result<(Sequence<Prop>, Text<'a>), ReadError>
    ensures { Reads result (props_of text.now property) }
{
    let (_, at, rest) = text.first();
    match property {
        None => Err(fault(UNKNOWN_PROPERTY, at)),
        Some(Property::Longhand(p)) => Ok((Sequence::from_slice(alloc, &[p])?, rest)),
        Some(Property::Shorthand(s)) => Ok((parts_of_shorthand(alloc, s)?, rest)),
        Some(Property::Unsupported) => Err(fault(UNSUPPORTED, at)),
    }
}

/// The properties whose name comes first, and the text after it.
fn props_first<'a>(
    alloc: Global,
    version: u8,
    text: &Text<'a>,
) -> Result<(Sequence<Prop>, Text<'a>), ReadError>
    ensures { Reads result (props_first version text.now) }
{
    let (word, _, _) = text.first();
    props_of(alloc, text, property_of(is_relative(version), word))
}

/// `unset NAME property`, after its first word.
fn unset_edit(alloc: Global, version: u8, text: &Text) -> Result<Edit, ReadError>
    ensures { Reads result (unset_edit version text.now) }
{
    let (named, text) = named_first(text)?;
    let (props, text) = props_first(alloc, version, &text)?;
    end_of(&text)?;
    Ok(Edit::Unset(named, props))
}

/// `insert PARENT INDEX` and a node's line, after its first word.
fn insert_edit(alloc: Global, version: u8, text: &Text) -> Result<Edit, ReadError>
    ensures { Reads result (insert_edit version text.now) }
{
    let (parent, text) = named_first(text)?;
    let (_, at, _) = text.first();
    let (index, text) = index_first(&text)?;
    let (named, text) = named_first(&text)?;
    let (kind, style) = node_text(alloc, version, &text)?;
    let node = Plain {
        name: named.name,
        kind,
        style,
        children: Children::new(alloc),
    };
    Ok(Edit::Insert(parent, index, at, named, node))
}

/// `remove NAME`, after its first word.
fn remove_edit(text: &Text) -> Result<Edit, ReadError>
    ensures { Reads result (remove_edit text.now) }
{
    let (named, text) = named_first(text)?;
    end_of(&text)?;
    Ok(Edit::Remove(named))
}

/// `move NAME PARENT INDEX`, after its first word.
fn move_edit(text: &Text) -> Result<Edit, ReadError>
    ensures { Reads result (move_edit text.now) }
{
    let (named, text) = named_first(text)?;
    let (parent, text) = named_first(&text)?;
    let (_, at, _) = text.first();
    let (index, text) = index_first(&text)?;
    end_of(&text)?;
    Ok(Edit::Move(named, parent, index, at))
}

/// `content NAME` and the content of a leaf, after its first word.
fn content_edit(alloc: Global, text: &Text) -> Result<Edit, ReadError>
    ensures { Reads result (content_edit text.now) }
{
    let (named, text) = named_first(text)?;
    let (kind, text) = content_first(alloc, &text)?;
    end_of(&text)?;
    Ok(Edit::Content(named, kind))
}

/// `viewport W H`, after its first word.
fn viewport_edit(text: &Text) -> Result<Edit, ReadError>
    ensures { Reads result (viewport_edit text.now) }
{
    let (width, text) = size_first(text)?;
    let (height, text) = size_first(&text)?;
    end_of(&text)?;
    Ok(Edit::Viewport(width, height))
}

/// `hit X Y`, after its first word.
fn hit_edit(text: &Text) -> Result<Edit, ReadError>
    ensures { Reads result (hit_edit text.now) }
{
    let (x, text) = position_first(text)?;
    let (y, text) = position_first(&text)?;
    end_of(&text)?;
    Ok(Edit::Hit(x, y))
}

/// `undo N`, after its first word.
fn undo_edit(text: &Text) -> Result<Edit, ReadError>
    ensures { Reads result (undo_edit text.now) }
{
    let (_, at, _) = text.first();
    let (times, text) = times_first(text)?;
    end_of(&text)?;
    Ok(Edit::Undo(times, at))
}

/// `redo N`, after its first word.
fn redo_edit(text: &Text) -> Result<Edit, ReadError>
    ensures { Reads result (redo_edit text.now) }
{
    let (_, at, _) = text.first();
    let (times, text) = times_first(text)?;
    end_of(&text)?;
    Ok(Edit::Redo(times, at))
}

/// The edit of a text whose first word is one of the last three, which change no document of
/// themselves.
fn asked_edit(text: &Text) -> Result<Edit, ReadError>
    ensures { Reads result (asked_edit text.now) }
{
    let (word, at, rest) = text.first();
    if word == b"undo".as_slice() {
        undo_edit(&rest)
    } else if word == b"redo".as_slice() {
        redo_edit(&rest)
    } else if word == b"hit".as_slice() {
        hit_edit(&rest)
    } else {
        Err(fault(UNKNOWN_EDIT, at))
    }
}

/// The edit of a text whose first word is none of the first three.
fn other_edit(alloc: Global, text: &Text) -> Result<Edit, ReadError>
    ensures { Reads result (other_edit text.now) }
{
    let (word, _, rest) = text.first();
    if word == b"remove".as_slice() {
        remove_edit(&rest)
    } else if word == b"move".as_slice() {
        move_edit(&rest)
    } else if word == b"content".as_slice() {
        content_edit(alloc, &rest)
    } else if word == b"viewport".as_slice() {
        viewport_edit(&rest)
    } else {
        asked_edit(text)
    }
}

/// The edit of a text by its first word.
fn edit_in(alloc: Global, version: u8, text: &Text) -> Result<Edit, ReadError>
    ensures { Reads result (edit_in version text.now) }
{
    let (word, _, rest) = text.first();
    if word == b"set".as_slice() {
        set_edit(alloc, version, &rest)
    } else if word == b"unset".as_slice() {
        unset_edit(alloc, version, &rest)
    } else if word == b"insert".as_slice() {
        insert_edit(alloc, version, &rest)
    } else {
        other_edit(alloc, text)
    }
}

/// Reads an edit line in a version of the language, 1 or 2 (own rule).
///
/// The forms are `set NAME property: value`, with a last `;` or without; `unset NAME property`;
/// `insert PARENT INDEX node-line`, without indentation; `remove NAME`; `move NAME PARENT INDEX`;
/// `content NAME leaf W H` and `content NAME words LINE SPACE w1 w2 ..`; `viewport W H`; `undo N`
/// and `redo N`; and `hit X Y`, which changes nothing. An index is an integer from 0 to 1,000,000,
/// N one from 1 to 1,000,000. X and Y are numbers of a magnitude of at most 1,048,576, with or
/// without `px`. Names, indices and N have their places.
///
/// The fault is that of the line where it has one, 1 or 2; and else that of the leftmost part that
/// has one: 20 at the first word where it is that of no edit, 5 at a name, 9 at an index or another
/// number, 7 at a kind, 8 or 11 at a property, 10 at one that stands in the same braces before, 9
/// or 11 at a value, and 9 at what follows the end. What is missing is missing just past the last
/// byte that counts. `NoMemory` where memory is wanting.
pub fn read_edit(alloc: Global, line: &Line, version: u8) -> Result<Edit, ReadError>
    ensures { Reads result (edit_of version line.now) }
{
    match line.fault {
        Some(fault) => Err(ReadError::Fault(fault)),
        None => edit_in(alloc, version, &Text::of(line)),
    }
}
