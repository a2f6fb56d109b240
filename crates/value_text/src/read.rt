//! Declarations.

ghost use Rattle.std.specs.Prelude.{◌≡◌, true, map, codes};
ghost use Rattle.std.specs.Str.{bytes_eq};
ghost use Rattle.std.specs.List.{list_all};
ghost use Rattle.track_text.specs.declared.errors.ReadError.TheVariants as error;
ghost use Rattle.track_text.specs.Words.{word_at, fits};
ghost use Rattle.track_text.specs.Gives.{Reads, fault_at};
ghost use Rattle.value_text.specs.Declarations.{place_after, refused_by, value_reading, value_at, after_property, by_property, tokens_reading, declaration};
ghost use Rattle.value_text.specs.Properties.{property_of};

use crate::form::{Refused, refused_by_prop, refused_by_shorthand};
use crate::property::{Property, property_of};
use crate::refusal::is_refused;
use crate::settings::settings_of;
use lunit::Sequence;
use std::alloc::Global;
use style_types::{DeclaredValue, Prop};
use text_scan::{Fault, Place, Token, tokens_in};
use track_text::{BAD_VALUE, ReadError, Stop, UNSUPPORTED, Words, is_relative};

/// The number of the fault of a property that is in no table.
pub const UNKNOWN_PROPERTY: u8 = 8;

/// The place of so many bytes after a place.
fn place_after(at: Place, bytes: usize) -> Place
    ensures { result ≡ place_after at bytes }
{
    let column = (at.column as u128 + bytes as u128).min(4_294_967_295);
    Place {
        line: at.line,
        column: column as u32,
    }
}

fn fault(number: u8, place: Place) -> ReadError
    ensures { result ≡ error.Fault (fault_at number place) }
{
    ReadError::Fault(Fault { number, place })
}

fn refused_by(property: Property) -> Refused
    ensures { result ≡ refused_by property }
{
    match property {
        Property::Longhand(p) => refused_by_prop(p),
        Property::Shorthand(shorthand) => refused_by_shorthand(shorthand),
        Property::Unsupported => Refused::Nothing,
    }
}

/// What the value at these tokens sets, or its fault at its place.
fn read_value(
    alloc: Global,
    at: Place,
    relative: bool,
    text: &[u8],
    property: Property,
    tokens: &[Token],
) -> Result<Sequence<(Prop, DeclaredValue)>, ReadError>
    requires { list_all (fits text.now) tokens.now ≡ true }
    ensures { Reads result
        (value_reading at relative property (map (word_at text.now) tokens.now)) }
{
    if is_refused(relative, refused_by(property), Words::new(text, tokens)) {
        return Err(fault(UNSUPPORTED, at));
    }
    match settings_of(alloc, relative, property, Words::new(text, tokens)) {
        Ok(settings) => Ok(settings),
        Err(Stop::Bad) => Err(fault(BAD_VALUE, at)),
        Err(Stop::NoMemory) => Err(ReadError::NoMemory),
    }
}

/// What the value at these tokens sets, or its fault at its place: a bad value where no tokens are
/// left.
fn value_at(
    alloc: Global,
    at: Place,
    relative: bool,
    text: &[u8],
    property: Property,
    tokens: &[Token],
) -> Result<Sequence<(Prop, DeclaredValue)>, ReadError>
    requires { list_all (fits text.now) tokens.now ≡ true }
    ensures { Reads result (value_at at relative text.now property tokens.now) }
{
    match tokens.first() {
        None => Err(fault(BAD_VALUE, place_after(at, text.len()))),
        Some(token) => {
            let place = place_after(at, token.start);
            read_value(alloc, place, relative, text, property, tokens)
        }
    }
}

fn is_colon(text: &[u8], token: Token) -> bool
    requires { fits text.now token ≡ true }
    ensures { result ≡ bytes_eq (word_at text.now token) (codes ":") }
{
    &text[token.start..token.end] == b":".as_slice()
}

/// What stands after the property: `:` and its value.
fn after_property(
    alloc: Global,
    at: Place,
    relative: bool,
    text: &[u8],
    property: Property,
    tokens: &[Token],
) -> Result<Sequence<(Prop, DeclaredValue)>, ReadError>
    requires { list_all (fits text.now) tokens.now ≡ true }
    ensures { Reads result (after_property at relative text.now property tokens.now) }
{
    match tokens.split_first() {
        None => Err(fault(BAD_VALUE, place_after(at, text.len()))),
        Some((token, tokens)) => {
            if is_colon(text, *token) {
                value_at(alloc, at, relative, text, property, tokens)
            } else {
                Err(fault(BAD_VALUE, place_after(at, token.start)))
            }
        }
    }
}

/// The property, and what stands after it.
fn by_property(
    alloc: Global,
    at: Place,
    relative: bool,
    text: &[u8],
    token: Token,
    tokens: &[Token],
) -> Result<Sequence<(Prop, DeclaredValue)>, ReadError>
    requires token { fits text.now token ≡ true }
    requires tokens { list_all (fits text.now) tokens.now ≡ true }
    ensures { Reads result
        (by_property at relative text.now token tokens.now
        (property_of relative (word_at text.now token))) }
{
    match property_of(relative, &text[token.start..token.end]) {
        None => Err(fault(UNKNOWN_PROPERTY, place_after(at, token.start))),
        Some(Property::Unsupported) => Err(fault(UNSUPPORTED, place_after(at, token.start))),
        Some(property) => after_property(alloc, at, relative, text, property, tokens),
    }
}

fn read_tokens(
    alloc: Global,
    at: Place,
    relative: bool,
    text: &[u8],
    tokens: &[Token],
) -> Result<Sequence<(Prop, DeclaredValue)>, ReadError>
    requires { list_all (fits text.now) tokens.now ≡ true }
    ensures { Reads result (tokens_reading at relative text.now tokens.now) }
{
    match tokens.split_first() {
        None => Err(fault(UNKNOWN_PROPERTY, place_after(at, text.len()))),
        Some((token, tokens)) => by_property(alloc, at, relative, text, *token, tokens),
    }
}

/// Reads a declaration, `property: value`, in a version of the language, 1 or 2: the properties that it sets, in order,
/// each with its declared value. `at` is the place of the first byte of the text, which has no comment and goes up to
/// the mark or the line end that ends the declaration.
///
/// Fault 8 comes exactly where the property is in no table or missing, at it or in its place; 11 exactly where the
/// property is unsupported, at it, or its value holds, outside square brackets, a word that is unsupported in it, at the
/// value's first byte; 9 exactly where `:` is missing, at what stands in its place, where the value is missing, at the
/// end of the text, or where it is not unsupported and has none of the forms of the property, at its first byte. Of
/// several the one with the least place. `NoMemory` where memory is wanting.
pub fn read_decl(
    alloc: Global,
    text: &[u8],
    at: Place,
    version: u8,
) -> Result<Sequence<(Prop, DeclaredValue)>, ReadError>
    ensures { Reads result (declaration version at text.now) }
{
    let tokens = tokens_in(alloc, text)?;
    read_tokens(alloc, at, is_relative(version), text, tokens.as_slice())
}
