//! What stands after the name of a node: its kind with its numbers, and its declarations.

ghost use Rattle.std.specs.Prelude.{◌≡◌, ◌≤◌, [], true, length, position, IfOk};
ghost use Rattle.std.specs.Str.{bytes_eq};
ghost use Rattle.std.specs.List.{list_all, position_or_len};
ghost use Rattle.std.specs.FinMap as map;
ghost use Rattle.track_text.specs.Gives.{Reads};
ghost use Rattle.track_text.specs.Words.{word_at, fits};
ghost use Rattle.value_text.specs.Declarations.{place_after};
ghost use Rattle.doc_text.specs.Texts.{Text, first_word};
ghost use Rattle.doc_text.specs.Tokens.{size_of_word};
ghost use Rattle.doc_text.specs.NodeText.{fixed_first, is_brace, width_at, widths_of, all_widths, widths_first, words_first, content_by, content_first, kind_first, is_semicolon, is_close, with_settings, is_among, declaration_by, SoFar, one_declared, ends_declaration, with_braces, braces_in, style_first, node_text};

use crate::kind::Kind;
use crate::text::{Text, end_of, fault, place_after};
use crate::token::{size_first, size_of_word};
use lunit::{Lu, NoMemory, Sequence};
use part_rules::Content;
use std::alloc::Global;
use std::marker::Model;
use style_types::{Declared, DeclaredValue, Prop};
use text_scan::{Place, Token, tokens_in};
use track_text::{BAD_VALUE, ReadError};
use value_text::read_decl;

/// The number of the fault of a kind that is missing or is none.
pub(crate) const UNKNOWN_KIND: u8 = 7;

/// The number of the fault of a property whose name stands twice in one pair of braces.
pub(crate) const DUPLICATE_PROPERTY: u8 = 10;

/// `W H` of a leaf.
fn fixed_first<'a>(text: &Text<'a>) -> Result<(Kind, Text<'a>), ReadError>
    ensures { Reads result (fixed_first text.now) }
{
    let (width, text) = size_first(text)?;
    let (height, text) = size_first(&text)?;
    Ok((Kind::Leaf(Content::Fixed { width, height }), text))
}

fn first_brace(bytes: &[u8]) -> Option<usize>
    ensures { result ≡ position is_brace bytes.now }
{
    bytes.iter().position(|byte| *byte == b'{')
}

#[tactic(auto, using(lunit::proofs::Numerals::found_or_length))]
/// Where the first `{` stands, or how many bytes there are.
fn brace_of(bytes: &[u8]) -> usize
    ensures place { result ≡ position_or_len is_brace bytes.now }
    ensures within { result ≤ length bytes.now }
{
    first_brace(bytes).unwrap_or(bytes.len())
}

/// The width of the word at a token; fault 9 at it where it is none.
fn width_of(text: &Text, token: Token) -> Result<Lu, ReadError>
    requires { fits text.now.bytes token ≡ true }
    ensures { Reads result
        (width_at (place_after text.now.at token.start)
        (size_of_word (word_at text.now.bytes token))) }
{
    let bytes = text.bytes();
    size_of_word(&bytes[token.start..token.end]).ok_or(fault(
        BAD_VALUE,
        place_after(text.at(), token.start),
    ))
}

#[tactic(auto, using(crate::proofs::Widths::reading))]
/// The widths of the words at these tokens.
fn widths_of(alloc: Global, text: &Text, tokens: &[Token]) -> Result<Sequence<Lu>, ReadError>
    requires { list_all (fits text.now.bytes) tokens.now ≡ true }
    ensures { Reads result (widths_of text.now tokens.now) }
{
    let mut widths = Sequence::from_vec(Vec::with_capacity(alloc, tokens.len())?);
    for token in tokens {
        widths.push(width_of(text, *token)?)?;
    }
    Ok(widths)
}

/// The widths of the words of a text.
fn all_widths(alloc: Global, text: &Text) -> Result<Sequence<Lu>, ReadError>
    ensures { Reads result (all_widths text.now) }
{
    let tokens = tokens_in(alloc, text.bytes())?;
    widths_of(alloc, text, tokens.as_slice())
}

/// The widths up to `{` or the end of the text, and the text from there on.
fn widths_first<'a>(alloc: Global, text: &Text<'a>) -> Result<(Sequence<Lu>, Text<'a>), ReadError>
    ensures { Reads result (widths_first text.now) }
{
    let stop = brace_of(text.bytes());
    let (front, back) = text.split_at(stop);
    let widths = all_widths(alloc, &front)?;
    Ok((widths, back))
}

/// `LINE SPACE w1 w2 ..` of a leaf.
fn words_first<'a>(alloc: Global, text: &Text<'a>) -> Result<(Kind, Text<'a>), ReadError>
    ensures { Reads result (words_first text.now) }
{
    let (line, text) = size_first(text)?;
    let (space, text) = size_first(&text)?;
    let (words, text) = widths_first(alloc, &text)?;
    Ok((Kind::Leaf(Content::Words { line, space, words }), text))
}

/// The content of a leaf by its first word, and the text after it; fault 7 at the place of the word
/// where it is neither of two words.
fn content_by<'a>(
    alloc: Global,
    word: &[u8],
    at: Place,
    rest: &Text<'a>,
) -> Result<(Kind, Text<'a>), ReadError>
    ensures { Reads result (content_by word.now at rest.now) }
{
    if word == b"leaf".as_slice() {
        fixed_first(rest)
    } else if word == b"words".as_slice() {
        words_first(alloc, rest)
    } else {
        Err(fault(UNKNOWN_KIND, at))
    }
}

/// The content of a leaf that comes first, and the text after it; fault 7 where neither of its
/// words does.
pub(crate) fn content_first<'a>(
    alloc: Global,
    text: &Text<'a>,
) -> Result<(Kind, Text<'a>), ReadError>
    ensures { Reads result (content_first text.now) }
{
    let (word, at, rest) = text.first();
    content_by(alloc, word, at, &rest)
}

/// The kind of a node that comes first, and the text after it.
fn kind_first<'a>(alloc: Global, text: &Text<'a>) -> Result<(Kind, Text<'a>), ReadError>
    ensures { Reads result (kind_first text.now) }
{
    let (word, at, rest) = text.first();
    if word == b"grid".as_slice() {
        Ok((Kind::Grid, rest))
    } else if word == b"flex".as_slice() {
        Ok((Kind::Flex, rest))
    } else {
        content_by(alloc, word, at, &rest)
    }
}

/// The name of a property in braces. Contracts see its bytes.
#[derive(Drop)]
struct Held<'a> {
    bytes: &'a [u8],
}

impl<'a> Model for Held<'a> {
    ghost use Rattle.std.specs.Prelude.{List, ℕ};

    ghost Value = { List ℕ };

    ghost view = { λ a. a.bytes.now };
}

impl<'a> Held<'a> {
    fn new(bytes: &'a [u8]) -> Held<'a>
        ensures { result ≡ bytes.now }
    {
        Held { bytes }
    }

    fn is(&self, name: &[u8]) -> bool
        ensures { result ≡ bytes_eq self.now name.now }
    {
        self.bytes == name
    }
}

/// Whether the name is among the names.
fn is_among(names: &[Held], name: &[u8]) -> bool
    ensures { result ≡ is_among names.now name.now }
{
    names.iter().any(|held| held.is(name))
}

/// Sets the properties one after another.
fn with_settings(
    style: Declared,
    settings: Sequence<(Prop, DeclaredValue)>,
) -> Result<Declared, NoMemory>
    ensures { IfOk result (λ made. made ≡ with_settings settings style) }
{
    let mut style = style;
    for (property, value) in settings.into_vec() {
        style.set(property, value)?;
    }
    Ok(style)
}

/// What a declaration sets that begins with this name at this place, where that is none of these
/// names; fault 10 where it is one.
fn declaration_by(
    alloc: Global,
    version: u8,
    names: &[Held],
    name: &[u8],
    at: Place,
    text: &Text,
) -> Result<Sequence<(Prop, DeclaredValue)>, ReadError>
    ensures { Reads result (declaration_by version names.now name.now at text.now) }
{
    if is_among(names, name) {
        return Err(fault(DUPLICATE_PROPERTY, at));
    }
    read_decl(alloc, text.bytes(), text.at(), version)
}

/// The properties of one pair of braces so far: their names, and what is declared.
type SoFar<'a> = (Sequence<Held<'a>>, Declared);

/// The properties of one pair of braces with the declaration of this text, which may be empty.
fn one_declared<'a>(
    alloc: Global,
    version: u8,
    text: &Text<'a>,
    made: SoFar<'a>,
) -> Result<SoFar<'a>, ReadError>
    ensures { Reads result (one_declared version text.now made.entry) }
{
    let (name, at, _) = text.first();
    if name.is_empty() {
        return Ok(made);
    }
    let (mut names, style) = made;
    let settings = declaration_by(alloc, version, names.as_slice(), name, at, text)?;
    names.push(Held::new(name))?;
    Ok((names, with_settings(style, settings)?))
}

fn first_end(bytes: &[u8]) -> Option<usize>
    ensures { result ≡ position ends_declaration bytes.now }
{
    bytes.iter().position(|byte| *byte == b'}' || *byte == b';')
}

#[tactic(auto, using(lunit::proofs::Numerals::found_or_length))]
/// Where the first declaration ends.
fn end_of_first(bytes: &[u8]) -> usize
    ensures place { result ≡ position_or_len ends_declaration bytes.now }
    ensures within { result ≤ length bytes.now }
{
    first_end(bytes).unwrap_or(bytes.len())
}

#[tactic(auto, using(crate::proofs::Cuts::cutting))]
/// The declarations after `{`, and the text after `}`; fault 9 at the end of the line where that is
/// missing.
fn with_braces<'a>(
    alloc: Global,
    version: u8,
    text: &Text<'a>,
) -> Result<(Declared, Text<'a>), ReadError>
    ensures { Reads result (with_braces version (braces_in text.now) ([], map.empty)) }
{
    let mut made = (Sequence::new(alloc), Declared::new(alloc));
    let mut left = text.same();
    loop {
        let (front, back) = left.split_at(end_of_first(left.bytes()));
        made = one_declared(alloc, version, &front, made)?;
        match back.bytes().split_first() {
            None => return Err(fault(BAD_VALUE, back.at())),
            Some((byte, _)) => {
                let rest = back.without_first();
                if *byte == b'}' {
                    let (_, style) = made;
                    return Ok((style, rest));
                }
                left = rest;
            }
        }
    }
}

/// The declarations that come first, which may be left out, and the text after them.
fn style_first<'a>(
    alloc: Global,
    version: u8,
    text: Text<'a>,
) -> Result<(Declared, Text<'a>), ReadError>
    ensures { Reads result (style_first version text.entry) }
{
    let (word, _, rest) = text.first();
    if word == b"{".as_slice() {
        with_braces(alloc, version, &rest)
    } else {
        Ok((Declared::new(alloc), text))
    }
}

/// The kind and the declarations after the name of a node, up to the end of the line.
pub(crate) fn node_text(
    alloc: Global,
    version: u8,
    text: &Text,
) -> Result<(Kind, Declared), ReadError>
    ensures { Reads result (node_text version text.now) }
{
    let (kind, text) = kind_first(alloc, text)?;
    let (style, text) = style_first(alloc, version, text)?;
    end_of(&text)?;
    Ok((kind, style))
}
