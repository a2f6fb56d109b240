ghost use Rattle.std.specs.Prelude.{◌≡◌, ◌≤◌, [], replicate, IfOk, OnOk};
ghost use Rattle.std.specs.FinMap as map;
ghost use Rattle.page_maker.specs.declared.choice.Choice.TheVariants as choice;
ghost use Rattle.page_maker.specs.Choices.{IsDrawn};
ghost use Rattle.page_maker.specs.Nodes.{px, length_of, repeated_template, shared_template, style_of, kind_of};

use crate::choice::Choice;
use doc_text::Kind;
use lunit::{LineValue, Lu, NameSet, NoMemory, Sequence};
use part_rules::Content;
use runs::Runs;
use std::alloc::Global;
use style_types::{
    Breadth, Declared, DeclaredValue, Prop, Repeat, Size, Template, TrackFn, TrackList, Unit,
    UnitList, Value,
};

#[tactic(auto, unfolding(lunit::specs::Units::clamp))]
/// A number of px as a length.
pub(crate) fn px(number: u64) -> Lu
    requires { number ≤ 1000 }
    ensures { result ≡ px number }
{
    Lu::of(64 * number as i64)
}

/// Declares a value without lengths.
pub(crate) fn plain_value(alloc: Global, value: Value) -> DeclaredValue
    ensures { result ≡ record { value = value; units = [] } }
{
    DeclaredValue {
        value,
        units: UnitList::new(alloc),
    }
}

/// Declares a length of so many px.
fn declare_px(style: &mut Declared, alloc: Global, p: Prop, number: u64) -> Result<(), NoMemory>
    requires { number ≤ 1000 }
    ensures { OnOk result (style.new ≡ map.insert style.old p (length_of p number).1) }
{
    let value = Value::Size(Size::Length(px(number)));
    let units = UnitList::one(alloc, Unit::Px)?;
    style.set(p, DeclaredValue { value, units })
}

/// A list of lines without names, as long as `count` says.
fn bare_lines(alloc: Global, count: usize) -> Result<Sequence<NameSet>, NoMemory>
    ensures { IfOk result (λ lines. lines ≡ replicate count []) }
{
    let mut lines = Sequence::new(alloc);
    for _line in 0..count {
        lines.push(NameSet::new(alloc))?;
    }
    Ok(lines)
}

/// `repeat(auto-fill, minmax(100px, 1fr))`.
fn repeated_template(alloc: Global) -> Result<Template, NoMemory>
    ensures { IfOk result (λ made. made ≡ repeated_template) }
{
    let track = TrackFn {
        least: Breadth::Length(px(100)),
        most: Breadth::Flex(1000),
        fit: None,
    };
    let repeat = Repeat {
        before: 0,
        auto_fit: false,
        sizes: Sequence::from_slice(alloc, &[track])?,
        names: bare_lines(alloc, 2)?,
    };
    Ok(Template::Tracks(TrackList {
        sizes: Runs::new(alloc),
        names: Runs::of(alloc, bare_lines(alloc, 2)?)?,
        repeat: Some(repeat),
    }))
}

/// `1fr 2fr`.
fn shared_template(alloc: Global) -> Result<Template, NoMemory>
    ensures { IfOk result (λ made. made ≡ shared_template) }
{
    let one = TrackFn {
        least: Breadth::Auto,
        most: Breadth::Flex(1000),
        fit: None,
    };
    let two = TrackFn {
        least: Breadth::Auto,
        most: Breadth::Flex(2000),
        fit: None,
    };
    Ok(Template::Tracks(TrackList {
        sizes: Runs::of(alloc, Sequence::from_slice(alloc, &[one, two])?)?,
        names: Runs::of(alloc, bare_lines(alloc, 3)?)?,
        repeat: None,
    }))
}

#[tactic(auto, unfolding(crate::specs::Nodes::style_of))]
/// `grid-template-columns: repeat(auto-fill, minmax(100px, 1fr)); gap: 4px`.
fn root_style(alloc: Global) -> Result<Declared, NoMemory>
    ensures { IfOk result (λ style. style ≡ style_of choice.Root) }
{
    let mut style = Declared::new(alloc);
    let value = Value::Template(repeated_template(alloc)?);
    let units = UnitList::one(alloc, Unit::Px)?;
    style.set(Prop::GridTemplateColumns, DeclaredValue { value, units })?;
    declare_px(&mut style, alloc, Prop::RowGap, 4)?;
    declare_px(&mut style, alloc, Prop::ColumnGap, 4)?;
    Ok(style)
}

#[tactic(auto, unfolding(crate::specs::Nodes::style_of))]
/// `grid-column: span 2; grid-template-columns: subgrid`.
fn lent_style(alloc: Global) -> Result<Declared, NoMemory>
    ensures { IfOk result (λ style. style ≡ style_of choice.Lent) }
{
    let mut style = Declared::new(alloc);
    let start = plain_value(alloc, Value::Line(LineValue::Reach(2, None)));
    style.set(Prop::GridColumnStart, start)?;
    let end = plain_value(alloc, Value::Line(LineValue::Auto));
    style.set(Prop::GridColumnEnd, end)?;
    let columns = Value::Template(Template::Subgrid(Runs::new(alloc)));
    style.set(Prop::GridTemplateColumns, plain_value(alloc, columns))?;
    Ok(style)
}

#[tactic(auto, unfolding(crate::specs::Nodes::style_of))]
/// `flex-wrap: wrap; column-gap: 2px`.
fn wrapping_style(alloc: Global) -> Result<Declared, NoMemory>
    ensures { IfOk result (λ style. style ≡ style_of choice.Wrapping) }
{
    let mut style = Declared::new(alloc);
    style.set(Prop::FlexWrap, plain_value(alloc, Value::Wrap(true)))?;
    declare_px(&mut style, alloc, Prop::ColumnGap, 2)?;
    Ok(style)
}

#[tactic(auto, unfolding(crate::specs::Nodes::style_of))]
/// `grid-template-columns: 1fr 2fr; row-gap: 3px`.
fn columns_style(alloc: Global) -> Result<Declared, NoMemory>
    ensures { IfOk result (λ style. style ≡ style_of choice.Columns) }
{
    let mut style = Declared::new(alloc);
    let columns = Value::Template(shared_template(alloc)?);
    style.set(Prop::GridTemplateColumns, plain_value(alloc, columns))?;
    declare_px(&mut style, alloc, Prop::RowGap, 3)?;
    Ok(style)
}

#[tactic(auto, unfolding(crate::specs::Nodes::style_of))]
/// The declared style of a node.
pub(crate) fn style_of(alloc: Global, choice: Choice) -> Result<Declared, NoMemory>
    ensures { IfOk result (λ style. style ≡ style_of choice) }
{
    match choice {
        Choice::Root => root_style(alloc),
        Choice::Lent => lent_style(alloc),
        Choice::Wrapping => wrapping_style(alloc),
        Choice::Columns => columns_style(alloc),
        Choice::Fixed(_, _) | Choice::Words(_, _, _, _, _) => Ok(Declared::new(alloc)),
    }
}

/// A leaf of a fixed size in px.
pub(crate) fn fixed_leaf(width: u64, height: u64) -> Kind
    requires wide { width ≤ 50 }
    requires high { height ≤ 50 }
    ensures { result ≡ kind_of (choice.Fixed width height) }
{
    Kind::Leaf(Content::Fixed {
        width: px(width),
        height: px(height),
    })
}

/// The kind of a node.
pub(crate) fn kind_of(alloc: Global, choice: Choice) -> Result<Kind, NoMemory>
    requires { IsDrawn choice }
    ensures { IfOk result (λ made. made ≡ kind_of choice) }
{
    match choice {
        Choice::Root | Choice::Lent | Choice::Columns => Ok(Kind::Grid),
        Choice::Wrapping => Ok(Kind::Flex),
        Choice::Fixed(width, height) => Ok(fixed_leaf(width, height)),
        Choice::Words(first, second, third, fourth, fifth) => {
            let widths = [px(first), px(second), px(third), px(fourth), px(fifth)];
            Ok(Kind::Leaf(Content::Words {
                line: px(12),
                space: px(3),
                words: Sequence::from_slice(alloc, &widths)?,
            }))
        }
    }
}
