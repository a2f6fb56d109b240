//! The properties by their names.

ghost use Rattle.std.specs.Prelude.{◌≡◌, ◌∷◌, [], IfOk};
ghost use Rattle.value_text.specs.Properties.{named, properties, properties_2, properties_3, properties_4, properties_5, properties_6, properties_7, properties_8, properties_9, properties_10, with_version, property_of, parts_of_shorthand};

use lunit::{NoMemory, Sequence};
use std::alloc::Global;
use style_types::Prop;

/// A property that stands for others, which its value sets one after another.
#[derive(Clone, Copy, Debug, PartialEq, Eq)]
pub enum Shorthand {
    /// `grid-column` (CSS Grid 2, section 8.4).
    GridColumn,
    /// `grid-row` (CSS Grid 2, section 8.4).
    GridRow,
    /// `grid-area` (CSS Grid 2, section 8.4).
    GridArea,
    /// `gap` (CSS Box Alignment 3, section 8.2).
    Gap,
    /// `margin` (CSS 2, section 8.3).
    Margin,
    /// `padding` (CSS 2, section 8.4).
    Padding,
    /// `border-width` (CSS 2, section 8.5.1).
    BorderWidth,
    /// `flex` (CSS Flexbox 1, section 7.1).
    Flex,
}

/// What the name of a property names.
#[derive(Clone, Copy, Debug, PartialEq, Eq)]
pub enum Property {
    /// A property that a style has.
    Longhand(Prop),
    /// A shorthand of such properties.
    Shorthand(Shorthand),
    /// A property that is not supported (own rule).
    Unsupported,
}

#[tactic(auto, unfolding(crate::specs::Properties::properties))]
/// The property of this name, in any version: the names stand in a table, of which each function has some rows.
fn named(name: &[u8]) -> Option<Property>
    ensures { result ≡ named properties name.now }
{
    if name == b"grid-template-columns".as_slice() {
        return Some(Property::Longhand(Prop::GridTemplateColumns));
    }
    if name == b"grid-template-rows".as_slice() {
        return Some(Property::Longhand(Prop::GridTemplateRows));
    }
    if name == b"grid-template-areas".as_slice() {
        return Some(Property::Longhand(Prop::GridTemplateAreas));
    }
    if name == b"grid-auto-columns".as_slice() {
        return Some(Property::Longhand(Prop::GridAutoColumns));
    }
    if name == b"grid-auto-rows".as_slice() {
        return Some(Property::Longhand(Prop::GridAutoRows));
    }
    if name == b"grid-auto-flow".as_slice() {
        return Some(Property::Longhand(Prop::GridAutoFlow));
    }
    if name == b"grid-column-start".as_slice() {
        return Some(Property::Longhand(Prop::GridColumnStart));
    }
    if name == b"grid-column-end".as_slice() {
        return Some(Property::Longhand(Prop::GridColumnEnd));
    }
    named_2(name)
}

#[tactic(auto, unfolding(crate::specs::Properties::properties_2))]
fn named_2(name: &[u8]) -> Option<Property>
    ensures { result ≡ named properties_2 name.now }
{
    if name == b"grid-row-start".as_slice() {
        return Some(Property::Longhand(Prop::GridRowStart));
    }
    if name == b"grid-row-end".as_slice() {
        return Some(Property::Longhand(Prop::GridRowEnd));
    }
    if name == b"order".as_slice() {
        return Some(Property::Longhand(Prop::Order));
    }
    if name == b"row-gap".as_slice() {
        return Some(Property::Longhand(Prop::RowGap));
    }
    if name == b"column-gap".as_slice() {
        return Some(Property::Longhand(Prop::ColumnGap));
    }
    if name == b"margin-top".as_slice() {
        return Some(Property::Longhand(Prop::MarginTop));
    }
    if name == b"margin-right".as_slice() {
        return Some(Property::Longhand(Prop::MarginRight));
    }
    if name == b"margin-bottom".as_slice() {
        return Some(Property::Longhand(Prop::MarginBottom));
    }
    named_3(name)
}

#[tactic(auto, unfolding(crate::specs::Properties::properties_3))]
fn named_3(name: &[u8]) -> Option<Property>
    ensures { result ≡ named properties_3 name.now }
{
    if name == b"margin-left".as_slice() {
        return Some(Property::Longhand(Prop::MarginLeft));
    }
    if name == b"padding-top".as_slice() {
        return Some(Property::Longhand(Prop::PaddingTop));
    }
    if name == b"padding-right".as_slice() {
        return Some(Property::Longhand(Prop::PaddingRight));
    }
    if name == b"padding-bottom".as_slice() {
        return Some(Property::Longhand(Prop::PaddingBottom));
    }
    if name == b"padding-left".as_slice() {
        return Some(Property::Longhand(Prop::PaddingLeft));
    }
    if name == b"border-top-width".as_slice() {
        return Some(Property::Longhand(Prop::BorderTopWidth));
    }
    if name == b"border-right-width".as_slice() {
        return Some(Property::Longhand(Prop::BorderRightWidth));
    }
    if name == b"border-bottom-width".as_slice() {
        return Some(Property::Longhand(Prop::BorderBottomWidth));
    }
    named_4(name)
}

#[tactic(auto, unfolding(crate::specs::Properties::properties_4))]
fn named_4(name: &[u8]) -> Option<Property>
    ensures { result ≡ named properties_4 name.now }
{
    if name == b"border-left-width".as_slice() {
        return Some(Property::Longhand(Prop::BorderLeftWidth));
    }
    if name == b"width".as_slice() {
        return Some(Property::Longhand(Prop::Width));
    }
    if name == b"height".as_slice() {
        return Some(Property::Longhand(Prop::Height));
    }
    if name == b"min-width".as_slice() {
        return Some(Property::Longhand(Prop::MinWidth));
    }
    if name == b"min-height".as_slice() {
        return Some(Property::Longhand(Prop::MinHeight));
    }
    if name == b"max-width".as_slice() {
        return Some(Property::Longhand(Prop::MaxWidth));
    }
    if name == b"max-height".as_slice() {
        return Some(Property::Longhand(Prop::MaxHeight));
    }
    if name == b"box-sizing".as_slice() {
        return Some(Property::Longhand(Prop::BoxSizing));
    }
    named_5(name)
}

#[tactic(auto, unfolding(crate::specs::Properties::properties_5))]
fn named_5(name: &[u8]) -> Option<Property>
    ensures { result ≡ named properties_5 name.now }
{
    if name == b"overflow".as_slice() {
        return Some(Property::Longhand(Prop::Overflow));
    }
    if name == b"justify-content".as_slice() {
        return Some(Property::Longhand(Prop::JustifyContent));
    }
    if name == b"align-content".as_slice() {
        return Some(Property::Longhand(Prop::AlignContent));
    }
    if name == b"justify-items".as_slice() {
        return Some(Property::Longhand(Prop::JustifyItems));
    }
    if name == b"align-items".as_slice() {
        return Some(Property::Longhand(Prop::AlignItems));
    }
    if name == b"justify-self".as_slice() {
        return Some(Property::Longhand(Prop::JustifySelf));
    }
    if name == b"align-self".as_slice() {
        return Some(Property::Longhand(Prop::AlignSelf));
    }
    if name == b"flex-direction".as_slice() {
        return Some(Property::Longhand(Prop::FlexDirection));
    }
    named_6(name)
}

#[tactic(auto, unfolding(crate::specs::Properties::properties_6))]
fn named_6(name: &[u8]) -> Option<Property>
    ensures { result ≡ named properties_6 name.now }
{
    if name == b"flex-wrap".as_slice() {
        return Some(Property::Longhand(Prop::FlexWrap));
    }
    if name == b"flex-grow".as_slice() {
        return Some(Property::Longhand(Prop::FlexGrow));
    }
    if name == b"flex-shrink".as_slice() {
        return Some(Property::Longhand(Prop::FlexShrink));
    }
    if name == b"flex-basis".as_slice() {
        return Some(Property::Longhand(Prop::FlexBasis));
    }
    if name == b"font-size".as_slice() {
        return Some(Property::Longhand(Prop::FontSize));
    }
    if name == b"grid-column".as_slice() {
        return Some(Property::Shorthand(Shorthand::GridColumn));
    }
    if name == b"grid-row".as_slice() {
        return Some(Property::Shorthand(Shorthand::GridRow));
    }
    if name == b"grid-area".as_slice() {
        return Some(Property::Shorthand(Shorthand::GridArea));
    }
    named_7(name)
}

#[tactic(auto, unfolding(crate::specs::Properties::properties_7))]
fn named_7(name: &[u8]) -> Option<Property>
    ensures { result ≡ named properties_7 name.now }
{
    if name == b"gap".as_slice() {
        return Some(Property::Shorthand(Shorthand::Gap));
    }
    if name == b"margin".as_slice() {
        return Some(Property::Shorthand(Shorthand::Margin));
    }
    if name == b"padding".as_slice() {
        return Some(Property::Shorthand(Shorthand::Padding));
    }
    if name == b"border-width".as_slice() {
        return Some(Property::Shorthand(Shorthand::BorderWidth));
    }
    if name == b"flex".as_slice() {
        return Some(Property::Shorthand(Shorthand::Flex));
    }
    if name == b"position".as_slice() {
        return Some(Property::Unsupported);
    }
    if name == b"top".as_slice() {
        return Some(Property::Unsupported);
    }
    if name == b"right".as_slice() {
        return Some(Property::Unsupported);
    }
    named_8(name)
}

#[tactic(auto, unfolding(crate::specs::Properties::properties_8))]
fn named_8(name: &[u8]) -> Option<Property>
    ensures { result ≡ named properties_8 name.now }
{
    if name == b"bottom".as_slice() {
        return Some(Property::Unsupported);
    }
    if name == b"left".as_slice() {
        return Some(Property::Unsupported);
    }
    if name == b"inset".as_slice() {
        return Some(Property::Unsupported);
    }
    if name == b"float".as_slice() {
        return Some(Property::Unsupported);
    }
    if name == b"clear".as_slice() {
        return Some(Property::Unsupported);
    }
    if name == b"writing-mode".as_slice() {
        return Some(Property::Unsupported);
    }
    if name == b"direction".as_slice() {
        return Some(Property::Unsupported);
    }
    if name == b"aspect-ratio".as_slice() {
        return Some(Property::Unsupported);
    }
    named_9(name)
}

#[tactic(auto, unfolding(crate::specs::Properties::properties_9))]
fn named_9(name: &[u8]) -> Option<Property>
    ensures { result ≡ named properties_9 name.now }
{
    if name == b"visibility".as_slice() {
        return Some(Property::Unsupported);
    }
    if name == b"display".as_slice() {
        return Some(Property::Unsupported);
    }
    if name == b"grid".as_slice() {
        return Some(Property::Unsupported);
    }
    if name == b"grid-template".as_slice() {
        return Some(Property::Unsupported);
    }
    if name == b"place-content".as_slice() {
        return Some(Property::Unsupported);
    }
    if name == b"place-items".as_slice() {
        return Some(Property::Unsupported);
    }
    if name == b"place-self".as_slice() {
        return Some(Property::Unsupported);
    }
    if name == b"flex-flow".as_slice() {
        return Some(Property::Unsupported);
    }
    named_10(name)
}

#[tactic(auto, unfolding(crate::specs::Properties::properties_10))]
fn named_10(name: &[u8]) -> Option<Property>
    ensures { result ≡ named properties_10 name.now }
{
    if name == b"border".as_slice() {
        return Some(Property::Unsupported);
    }
    if name == b"break-before".as_slice() {
        return Some(Property::Unsupported);
    }
    if name == b"break-after".as_slice() {
        return Some(Property::Unsupported);
    }
    if name == b"break-inside".as_slice() {
        return Some(Property::Unsupported);
    }
    None
}

fn with_version(relative: bool, property: Property) -> Property
    ensures { result ≡ with_version relative property }
{
    match property {
        Property::Longhand(Prop::FontSize) if !relative => Property::Unsupported,
        other => other,
    }
}

/// The property of this name; `None` exactly where it is in no table. `font-size` is unsupported where lengths may not
/// be relative.
pub fn property_of(relative: bool, name: &[u8]) -> Option<Property>
    ensures { result ≡ property_of relative name.now }
{
    let property = named(name)?;
    Some(with_version(relative, property))
}

/// The properties that the shorthand sets, in order.
pub fn parts_of_shorthand(alloc: Global, shorthand: Shorthand) -> Result<Sequence<Prop>, NoMemory>
    ensures { IfOk result (λ parts. parts ≡ parts_of_shorthand shorthand) }
{
    match shorthand {
        Shorthand::GridColumn => two(alloc, Prop::GridColumnStart, Prop::GridColumnEnd),
        Shorthand::GridRow => two(alloc, Prop::GridRowStart, Prop::GridRowEnd),
        Shorthand::GridArea => Sequence::from_slice(
            alloc,
            &[
                Prop::GridRowStart,
                Prop::GridColumnStart,
                Prop::GridRowEnd,
                Prop::GridColumnEnd,
            ],
        ),
        Shorthand::Gap => two(alloc, Prop::RowGap, Prop::ColumnGap),
        Shorthand::Margin => Sequence::from_slice(
            alloc,
            &[
                Prop::MarginTop,
                Prop::MarginRight,
                Prop::MarginBottom,
                Prop::MarginLeft,
            ],
        ),
        Shorthand::Padding => Sequence::from_slice(
            alloc,
            &[
                Prop::PaddingTop,
                Prop::PaddingRight,
                Prop::PaddingBottom,
                Prop::PaddingLeft,
            ],
        ),
        Shorthand::BorderWidth => Sequence::from_slice(
            alloc,
            &[
                Prop::BorderTopWidth,
                Prop::BorderRightWidth,
                Prop::BorderBottomWidth,
                Prop::BorderLeftWidth,
            ],
        ),
        Shorthand::Flex => Sequence::from_slice(
            alloc,
            &[Prop::FlexGrow, Prop::FlexShrink, Prop::FlexBasis],
        ),
    }
}

fn two(alloc: Global, first: Prop, second: Prop) -> Result<Sequence<Prop>, NoMemory>
    ensures { IfOk result (λ parts. parts ≡ first ∷ second ∷ []) }
{
    Sequence::from_slice(alloc, &[first, second])
}
