//! The forms of values, one row a property.

ghost use Rattle.std.specs.Prelude.{◌≡◌};
ghost use Rattle.value_text.specs.Forms.{form_of, refused_by_prop, refused_by_shorthand};

use crate::keyword::AlignForm;
use crate::property::Shorthand;
use crate::size::SizeForm;
use style_types::Prop;

/// What the value of a property has to be.
#[derive(Clone, Copy, Debug, PartialEq, Eq)]
pub enum Form {
    /// `none`, a track list, or `subgrid` with name sets.
    Template,
    /// `none`, or one quoted string a row.
    Areas,
    /// Track sizes, one at least.
    Tracks,
    /// `row`, `column`, `dense`, or one of the first two with `dense`.
    Flow,
    /// A line value.
    Line,
    /// An integer.
    Order,
    /// A size.
    Size(SizeForm),
    /// `content-box` or `border-box`.
    BoxSizing,
    /// `visible`, `clip`, `hidden`, `scroll` or `auto`.
    Overflow,
    /// An alignment.
    Align(AlignForm),
    /// `row` or `column`.
    Direction,
    /// `nowrap` or `wrap`.
    Wrap,
    /// A factor.
    Factor,
}

/// The words that a property refuses as unsupported beside those that every property does (own rule).
#[derive(Clone, Copy, Debug, PartialEq, Eq)]
pub enum Refused {
    /// No others.
    Nothing,
    /// `masonry`, and after `subgrid` `auto-fill` and `auto-fit`.
    Template,
    /// `baseline`, `left` and `right`.
    Baselines,
    /// `min-content`, `max-content` and `fit-content`.
    Contents,
    /// Percentages.
    Percentages,
    /// `row-reverse`, `column-reverse` and `wrap-reverse`.
    Reversed,
}

/// A length of at least 0.
pub(crate) const EDGE: SizeForm = SizeForm {
    auto: false,
    none: false,
    normal: false,
    content: false,
    percent: false,
    below_zero: false,
};

/// `auto` or a length.
pub(crate) const MARGIN: SizeForm = SizeForm {
    auto: true,
    none: false,
    normal: false,
    content: false,
    percent: false,
    below_zero: true,
};

/// `normal`, a length of at least 0, or a percentage.
pub(crate) const GAP: SizeForm = SizeForm {
    auto: false,
    none: false,
    normal: true,
    content: false,
    percent: true,
    below_zero: false,
};

/// `auto`, a length of at least 0, or a percentage.
const SIZE: SizeForm = SizeForm {
    auto: true,
    none: false,
    normal: false,
    content: false,
    percent: true,
    below_zero: false,
};

/// `none`, a length of at least 0, or a percentage.
const MOST: SizeForm = SizeForm {
    auto: false,
    none: true,
    normal: false,
    content: false,
    percent: true,
    below_zero: false,
};

/// `auto`, `content`, a length of at least 0, or a percentage.
pub(crate) const BASIS: SizeForm = SizeForm {
    auto: true,
    none: false,
    normal: false,
    content: true,
    percent: true,
    below_zero: false,
};

const CONTENT: AlignForm = AlignForm {
    auto: false,
    spaces: true,
};

const ITEMS: AlignForm = AlignForm {
    auto: false,
    spaces: false,
};

const SELF: AlignForm = AlignForm {
    auto: true,
    spaces: false,
};

/// The form of the property's value.
pub(crate) fn form_of(p: Prop) -> Form
    ensures { result ≡ form_of p }
{
    match p {
        Prop::GridTemplateColumns | Prop::GridTemplateRows => Form::Template,
        Prop::GridTemplateAreas => Form::Areas,
        Prop::GridAutoColumns | Prop::GridAutoRows => Form::Tracks,
        Prop::GridAutoFlow => Form::Flow,
        Prop::GridColumnStart | Prop::GridColumnEnd | Prop::GridRowStart | Prop::GridRowEnd => {
            Form::Line
        }
        Prop::Order => Form::Order,
        Prop::RowGap | Prop::ColumnGap => Form::Size(GAP),
        Prop::MarginTop | Prop::MarginRight | Prop::MarginBottom | Prop::MarginLeft => {
            Form::Size(MARGIN)
        }
        Prop::Width | Prop::Height | Prop::MinWidth | Prop::MinHeight => Form::Size(SIZE),
        Prop::MaxWidth | Prop::MaxHeight => Form::Size(MOST),
        Prop::BoxSizing => Form::BoxSizing,
        Prop::Overflow => Form::Overflow,
        Prop::JustifyContent | Prop::AlignContent => Form::Align(CONTENT),
        Prop::JustifyItems | Prop::AlignItems => Form::Align(ITEMS),
        Prop::JustifySelf | Prop::AlignSelf => Form::Align(SELF),
        Prop::FlexDirection => Form::Direction,
        Prop::FlexWrap => Form::Wrap,
        Prop::FlexGrow | Prop::FlexShrink => Form::Factor,
        Prop::FlexBasis => Form::Size(BASIS),
        // The paddings, the border widths and `font-size`.
        _ => Form::Size(EDGE),
    }
}

/// The words that the property refuses.
pub(crate) fn refused_by_prop(p: Prop) -> Refused
    ensures { result ≡ refused_by_prop p }
{
    match p {
        Prop::GridTemplateColumns | Prop::GridTemplateRows => Refused::Template,
        Prop::MarginTop
        | Prop::MarginRight
        | Prop::MarginBottom
        | Prop::MarginLeft
        | Prop::PaddingTop
        | Prop::PaddingRight
        | Prop::PaddingBottom
        | Prop::PaddingLeft => Refused::Percentages,
        Prop::Width
        | Prop::Height
        | Prop::MinWidth
        | Prop::MinHeight
        | Prop::MaxWidth
        | Prop::MaxHeight
        | Prop::FlexBasis => Refused::Contents,
        Prop::JustifyContent
        | Prop::AlignContent
        | Prop::JustifyItems
        | Prop::AlignItems
        | Prop::JustifySelf
        | Prop::AlignSelf => Refused::Baselines,
        Prop::FlexDirection | Prop::FlexWrap => Refused::Reversed,
        _ => Refused::Nothing,
    }
}

/// The words that the shorthand refuses.
pub(crate) fn refused_by_shorthand(shorthand: Shorthand) -> Refused
    ensures { result ≡ refused_by_shorthand shorthand }
{
    match shorthand {
        Shorthand::Margin | Shorthand::Padding => Refused::Percentages,
        _ => Refused::Nothing,
    }
}
