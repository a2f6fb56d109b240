ghost use Rattle.std.specs.Prelude.{◌≡◌, ◌∷◌, [], IfOk, IfErr, None, pos};
ghost use Rattle.style_types.specs.declared.value.Value.TheVariants as value;
ghost use Rattle.style_types.specs.declared.value.Size.TheVariants as size;
ghost use Rattle.style_types.specs.Table.{initial, auto_track, IsTrackSizes};

use crate::prop::Prop;
use crate::track::{Breadth, Template, TrackFn};
use crate::value::{Align, AlignMode, Scroll, Size, Value};
use lunit::{LineValue, Lu, NoMemory, Sequence};
use std::alloc::Global;

/// The list of the one track size `auto`.
fn auto_tracks(alloc: Global) -> Result<Sequence<TrackFn>, NoMemory>
    ensures { IfOk result (λ sizes. sizes ≡ auto_track ∷ []) }
{
    let mut sizes = Sequence::new(alloc);
    sizes.push(TrackFn {
        least: Breadth::Auto,
        most: Breadth::Auto,
        fit: None,
    })?;
    Ok(sizes)
}

/// The alignment of this mode, with neither `safe` nor `unsafe`.
fn plain_align(mode: AlignMode) -> Value
    ensures { result ≡ value.Align (record { mode = mode; safe = None }) }
{
    Value::Align(Align { mode, safe: None })
}

#[tactic(auto, unfolding(lunit::specs::Units::clamp))]
/// A length of 0.
fn zero_length() -> Value
    ensures { result ≡ value.Size (size.Length (pos 0)) }
{
    Value::Size(Size::Length(Lu::of(0)))
}

#[tactic(auto, unfolding(lunit::specs::Units::clamp))]
/// The font size of the root where none is set: 16 px, in units of 1/64 px (own rule).
fn font_length() -> Value
    ensures { result ≡ value.Size (size.Length (pos 1024)) }
{
    Value::Size(Size::Length(Lu::of(1024)))
}

/// The value that the property has where it is not set. Takes memory for `grid-auto-columns` and `grid-auto-rows`
/// alone.
pub fn initial_of(alloc: Global, p: Prop) -> Result<Value, NoMemory>
    ensures value { IfOk result (λ v. v ≡ initial p) }
    ensures memory { IfErr result (λ _. IsTrackSizes (initial p)) }
{
    match p {
        Prop::GridTemplateColumns | Prop::GridTemplateRows => Ok(Value::Template(Template::Absent)),
        Prop::GridTemplateAreas => Ok(Value::Areas(None)),
        Prop::GridAutoColumns | Prop::GridAutoRows => Ok(Value::Sizes(auto_tracks(alloc)?)),
        Prop::GridAutoFlow => Ok(Value::Flow {
            column: false,
            dense: false,
        }),
        Prop::GridColumnStart | Prop::GridColumnEnd | Prop::GridRowStart | Prop::GridRowEnd => Ok(
            Value::Line(LineValue::Auto),
        ),
        Prop::Order => Ok(Value::Order(0)),
        Prop::RowGap | Prop::ColumnGap => Ok(Value::Size(Size::Normal)),
        Prop::Width | Prop::Height | Prop::MinWidth | Prop::MinHeight | Prop::FlexBasis => Ok(
            Value::Size(Size::Auto),
        ),
        Prop::MaxWidth | Prop::MaxHeight => Ok(Value::Size(Size::Absent)),
        Prop::BoxSizing => Ok(Value::BorderBox(false)),
        Prop::Overflow => Ok(Value::Overflow(Scroll::Visible)),
        Prop::JustifyContent | Prop::AlignContent | Prop::JustifyItems | Prop::AlignItems => Ok(
            plain_align(AlignMode::Normal),
        ),
        Prop::JustifySelf | Prop::AlignSelf => Ok(plain_align(AlignMode::Auto)),
        Prop::FlexDirection => Ok(Value::Column(false)),
        Prop::FlexWrap => Ok(Value::Wrap(false)),
        Prop::FlexGrow => Ok(Value::Factor(0)),
        Prop::FlexShrink => Ok(Value::Factor(1000)),
        Prop::FontSize => Ok(font_length()),
        // The margins, paddings and border widths.
        _ => Ok(zero_length()),
    }
}
