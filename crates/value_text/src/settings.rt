//! What a declaration sets: the parts of shorthands, each with its value.

ghost use Rattle.std.specs.Prelude.{◌≡◌, ◌∷◌, [], IfOk};
ghost use Rattle.std.specs.Option.{option_map};
ghost use Rattle.style_types.specs.declared.prop.Prop.TheVariants as prop;
ghost use Rattle.track_text.specs.Gives.{Gives};
ghost use Rattle.value_text.specs.Lines.{two_lines, four_lines};
ghost use Rattle.value_text.specs.Sizes.{side_sizes, size_value, two_sizes};
ghost use Rattle.value_text.specs.FlexText.{flex_of};
ghost use Rattle.value_text.specs.ValueText.{line_value, two_settings, line_settings, area_settings, gap_settings, side_settings, flex_parts, flex_settings, parts_of, one_setting, value_of, settings_of};
ghost use Rattle.value_text.specs.Forms.{form_of, gap_form};

use crate::flex::flex_of;
use crate::form::{EDGE, GAP, MARGIN, form_of};
use crate::line::{four_lines, two_lines};
use crate::property::{Property, Shorthand};
use crate::size::{Measured, SizeForm, side_sizes, size_value, two_sizes};
use crate::value::{plain, value_of};
use lunit::{LineValue, NoMemory, Sequence};
use std::alloc::Global;
use style_types::{DeclaredValue, Prop, Value};
use track_text::{Stop, Words};

/// The four properties of the sides: top, right, bottom and left.
#[derive(Clone, Copy)]
struct SideProps {
    top: Prop,
    right: Prop,
    bottom: Prop,
    left: Prop,
}

const MARGINS: SideProps = SideProps {
    top: Prop::MarginTop,
    right: Prop::MarginRight,
    bottom: Prop::MarginBottom,
    left: Prop::MarginLeft,
};

const PADDINGS: SideProps = SideProps {
    top: Prop::PaddingTop,
    right: Prop::PaddingRight,
    bottom: Prop::PaddingBottom,
    left: Prop::PaddingLeft,
};

const BORDERS: SideProps = SideProps {
    top: Prop::BorderTopWidth,
    right: Prop::BorderRightWidth,
    bottom: Prop::BorderBottomWidth,
    left: Prop::BorderLeftWidth,
};

fn one_setting(
    alloc: Global,
    p: Prop,
    value: DeclaredValue,
) -> Result<Sequence<(Prop, DeclaredValue)>, NoMemory>
    ensures { IfOk result (λ all. all ≡ one_setting p value) }
{
    let mut all = Sequence::new(alloc);
    all.push((p, value))?;
    Ok(all)
}

fn two_settings(
    alloc: Global,
    p: Prop,
    q: Prop,
    first: DeclaredValue,
    second: DeclaredValue,
) -> Result<Sequence<(Prop, DeclaredValue)>, NoMemory>
    ensures { IfOk result (λ all. all ≡ two_settings p q first second) }
{
    let mut all = one_setting(alloc, p, first)?;
    all.push((q, second))?;
    Ok(all)
}

fn line(alloc: Global, line: LineValue) -> DeclaredValue
    ensures { result ≡ line_value line }
{
    plain(alloc, Value::Line(line))
}

/// The lines of `grid-column` or `grid-row`.
fn lines(
    alloc: Global,
    start: Prop,
    end: Prop,
    words: Words,
) -> Result<Sequence<(Prop, DeclaredValue)>, Stop>
    ensures { Gives result (option_map (line_settings start end) (two_lines words.entry)) }
{
    let (first, second) = two_lines(words).ok_or(Stop::Bad)?;
    let first = line(alloc, first);
    let second = line(alloc, second);
    Ok(two_settings(alloc, start, end, first, second)?)
}

/// The lines of `grid-area` after the row start.
fn other_lines(
    alloc: Global,
    row: DeclaredValue,
    column: LineValue,
    row_end: LineValue,
    column_end: LineValue,
) -> Result<Sequence<(Prop, DeclaredValue)>, NoMemory>
    ensures { IfOk result
        (λ all. all ≡
        (prop.GridRowStart, row) ∷ (prop.GridColumnStart, line_value column) ∷
        (prop.GridRowEnd, line_value row_end) ∷
        (prop.GridColumnEnd, line_value column_end) ∷ []) }
{
    let column = line(alloc, column);
    let mut all = two_settings(
        alloc,
        Prop::GridRowStart,
        Prop::GridColumnStart,
        row,
        column,
    )?;
    all.push((Prop::GridRowEnd, line(alloc, row_end)))?;
    all.push((Prop::GridColumnEnd, line(alloc, column_end)))?;
    Ok(all)
}

/// The lines of `grid-area`.
fn area(alloc: Global, words: Words) -> Result<Sequence<(Prop, DeclaredValue)>, Stop>
    ensures { Gives result (option_map area_settings (four_lines words.entry)) }
{
    let (row, column, row_end, column_end) = four_lines(words).ok_or(Stop::Bad)?;
    let row = line(alloc, row);
    Ok(other_lines(alloc, row, column, row_end, column_end)?)
}

/// The gaps of `gap`.
fn gap(alloc: Global, relative: bool, words: Words) -> Result<Sequence<(Prop, DeclaredValue)>, Stop>
    ensures { Gives result (option_map gap_settings (two_sizes relative gap_form words.entry)) }
{
    let (row, column) = two_sizes(relative, GAP, words).ok_or(Stop::Bad)?;
    let row = size_value(alloc, row.size, row.unit)?;
    let column = size_value(alloc, column.size, column.unit)?;
    Ok(two_settings(alloc, Prop::RowGap, Prop::ColumnGap, row, column)?)
}

/// The sides after the top.
fn other_sides(
    alloc: Global,
    props: SideProps,
    top: DeclaredValue,
    right: Measured,
    bottom: Measured,
    left: Measured,
) -> Result<Sequence<(Prop, DeclaredValue)>, NoMemory>
    ensures { IfOk result
        (λ all. all ≡
        (props.top, top) ∷ (props.right, size_value right) ∷ (props.bottom, size_value bottom) ∷
        (props.left, size_value left) ∷ []) }
{
    let right = size_value(alloc, right.size, right.unit)?;
    let mut all = two_settings(alloc, props.top, props.right, top, right)?;
    all.push((props.bottom, size_value(alloc, bottom.size, bottom.unit)?))?;
    all.push((props.left, size_value(alloc, left.size, left.unit)?))?;
    Ok(all)
}

/// The sides of `margin`, `padding` or `border-width`.
fn sides(
    alloc: Global,
    relative: bool,
    props: SideProps,
    form: SizeForm,
    words: Words,
) -> Result<Sequence<(Prop, DeclaredValue)>, Stop>
    ensures { Gives result
        (option_map (side_settings props.top props.right props.bottom props.left)
        (side_sizes relative form words.entry)) }
{
    let (top, right, bottom, left) = side_sizes(relative, form, words).ok_or(Stop::Bad)?;
    let top = size_value(alloc, top.size, top.unit)?;
    Ok(other_sides(alloc, props, top, right, bottom, left)?)
}

/// The factors of `flex`, then the basis.
fn flex_parts(
    alloc: Global,
    grow: u32,
    shrink: u32,
    basis: DeclaredValue,
) -> Result<Sequence<(Prop, DeclaredValue)>, NoMemory>
    ensures { IfOk result (λ all. all ≡ flex_parts grow shrink basis) }
{
    let grow = plain(alloc, Value::Factor(grow));
    let shrink = plain(alloc, Value::Factor(shrink));
    let mut all = two_settings(alloc, Prop::FlexGrow, Prop::FlexShrink, grow, shrink)?;
    all.push((Prop::FlexBasis, basis))?;
    Ok(all)
}

/// The parts of `flex`.
fn flex(
    alloc: Global,
    relative: bool,
    words: Words,
) -> Result<Sequence<(Prop, DeclaredValue)>, Stop>
    ensures { Gives result (option_map flex_settings (flex_of relative words.entry)) }
{
    let flex = flex_of(relative, words).ok_or(Stop::Bad)?;
    let basis = size_value(alloc, flex.basis.size, flex.basis.unit)?;
    Ok(flex_parts(alloc, flex.grow, flex.shrink, basis)?)
}

/// The parts of the shorthand, with the values that the words give them.
fn parts_of(
    alloc: Global,
    relative: bool,
    shorthand: Shorthand,
    words: Words,
) -> Result<Sequence<(Prop, DeclaredValue)>, Stop>
    ensures { Gives result (parts_of relative shorthand words.entry) }
{
    match shorthand {
        Shorthand::GridColumn => lines(alloc, Prop::GridColumnStart, Prop::GridColumnEnd, words),
        Shorthand::GridRow => lines(alloc, Prop::GridRowStart, Prop::GridRowEnd, words),
        Shorthand::GridArea => area(alloc, words),
        Shorthand::Gap => gap(alloc, relative, words),
        Shorthand::Margin => sides(alloc, relative, MARGINS, MARGIN, words),
        Shorthand::Padding => sides(alloc, relative, PADDINGS, EDGE, words),
        Shorthand::BorderWidth => sides(alloc, relative, BORDERS, EDGE, words),
        Shorthand::Flex => flex(alloc, relative, words),
    }
}

/// The one property with the value that the words give it.
fn longhand(
    alloc: Global,
    relative: bool,
    p: Prop,
    words: Words,
) -> Result<Sequence<(Prop, DeclaredValue)>, Stop>
    ensures { Gives result
        (option_map (one_setting p) (value_of relative (form_of p) words.entry)) }
{
    let value = value_of(alloc, relative, form_of(p), words)?;
    Ok(one_setting(alloc, p, value)?)
}

/// What a declaration of the property with this value sets, in order.
pub(crate) fn settings_of(
    alloc: Global,
    relative: bool,
    property: Property,
    words: Words,
) -> Result<Sequence<(Prop, DeclaredValue)>, Stop>
    ensures { Gives result (settings_of relative property words.entry) }
{
    match property {
        Property::Longhand(p) => longhand(alloc, relative, p, words),
        Property::Shorthand(shorthand) => parts_of(alloc, relative, shorthand, words),
        Property::Unsupported => Err(Stop::Bad),
    }
}
