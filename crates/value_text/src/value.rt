//! The values of properties, one function a form.

ghost use Rattle.std.specs.Prelude.{◌≡◌};
ghost use Rattle.std.specs.Option.{option_map};
ghost use Rattle.track_text.specs.Gives.{Gives};
ghost use Rattle.value_text.specs.declared.form.Form.TheVariants as forms;
ghost use Rattle.value_text.specs.AreaText.{areas_of};
ghost use Rattle.value_text.specs.ValueText.{plain, areas_value, word_value, value_of};

use crate::area::areas_of;
use crate::form::Form;
use crate::keyword::{
    AlignForm, align_of, either_alone, factor_alone, flow_of, integer_alone, scroll_alone,
};
use crate::line::one_line;
use crate::size::{SizeForm, one_size, size_value};
use std::alloc::Global;
use style_types::{DeclaredValue, UnitList, Value};
use track_text::{Stop, Words, auto_tracks, template_of};

/// A value without lengths.
pub(crate) fn plain(alloc: Global, value: Value) -> DeclaredValue
    ensures { result ≡ plain value }
{
    DeclaredValue {
        value,
        units: UnitList::new(alloc),
    }
}

fn template(alloc: Global, relative: bool, words: Words) -> Result<DeclaredValue, Stop>
    ensures { Gives result (value_of relative forms.Template words.entry) }
{
    let (template, units) = template_of(alloc, relative, words)?;
    Ok(DeclaredValue {
        value: Value::Template(template),
        units,
    })
}

fn areas(alloc: Global, words: Words) -> Result<DeclaredValue, Stop>
    ensures { Gives result (option_map areas_value (areas_of words.entry)) }
{
    let areas = areas_of(alloc, words)?;
    Ok(plain(alloc, Value::Areas(areas)))
}

fn tracks(alloc: Global, relative: bool, words: Words) -> Result<DeclaredValue, Stop>
    ensures { Gives result (value_of relative forms.Tracks words.entry) }
{
    let (sizes, units) = auto_tracks(alloc, relative, words)?;
    Ok(DeclaredValue {
        value: Value::Sizes(sizes),
        units,
    })
}

fn size(alloc: Global, relative: bool, form: SizeForm, words: Words) -> Result<DeclaredValue, Stop>
    ensures { Gives result (value_of relative (forms.Size form) words.entry) }
{
    let measured = one_size(relative, form, words).ok_or(Stop::Bad)?;
    Ok(size_value(alloc, measured.size, measured.unit)?)
}

/// The value of a form without lengths and lists.
fn word_value(form: Form, words: Words) -> Option<Value>
    ensures { result ≡ word_value form words.entry }
{
    match form {
        Form::Flow => {
            let (column, dense) = flow_of(words)?;
            Some(Value::Flow { column, dense })
        }
        Form::Line => Some(Value::Line(one_line(words)?)),
        Form::Order => Some(Value::Order(integer_alone(words)?)),
        Form::BoxSizing => Some(Value::BorderBox(either_alone(
            b"content-box",
            b"border-box",
            words,
        )?)),
        Form::Overflow => Some(Value::Overflow(scroll_alone(words)?)),
        Form::Align(align) => Some(Value::Align(align_of(align, words)?)),
        Form::Direction => Some(Value::Column(either_alone(b"row", b"column", words)?)),
        Form::Wrap => Some(Value::Wrap(either_alone(b"nowrap", b"wrap", words)?)),
        Form::Factor => Some(Value::Factor(factor_alone(words)?)),
        _ => None,
    }
}

fn word(alloc: Global, form: Form, words: Words) -> Result<DeclaredValue, Stop>
    ensures { Gives result (option_map plain (word_value form words.entry)) }
{
    let value = word_value(form, words).ok_or(Stop::Bad)?;
    Ok(plain(alloc, value))
}

/// The value of this form that the words are.
pub(crate) fn value_of(
    alloc: Global,
    relative: bool,
    form: Form,
    words: Words,
) -> Result<DeclaredValue, Stop>
    ensures { Gives result (value_of relative form words.entry) }
{
    match form {
        Form::Template => template(alloc, relative, words),
        Form::Areas => areas(alloc, words),
        Form::Tracks => tracks(alloc, relative, words),
        Form::Size(form) => size(alloc, relative, form, words),
        other => word(alloc, other, words),
    }
}
