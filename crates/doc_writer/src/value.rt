//! The values of properties.
#![tactic(auto, using(crate::proofs::Kept::adding))]

ghost use Rattle.std.specs.Prelude.{◌≡◌, ◌∷◌, [], pos, OnOk};
ghost use Rattle.doc_writer.specs.Areas.{areas_words};
ghost use Rattle.doc_writer.specs.Numbers.{integer};
ghost use Rattle.doc_writer.specs.Spaces.{put};
ghost use Rattle.doc_writer.specs.Tracks.{first_unit};
ghost use Rattle.doc_writer.specs.Values.{size_word, name_words, line_words, axis_word, flow_words, box_word, wrap_word, scroll_word, mode_word, safe_words, align_words, value_words_with, value_words};

use crate::area::write_areas;
use crate::line::LineText;
use crate::track::{write_sizes, write_template};
use crate::units::Units;
use lunit::{LineValue, Name, NoMemory};
use std::alloc::Global;
use style_types::{Align, AlignMode, DeclaredValue, Scroll, Size, Unit, Value};

/// Adds a size, whose length has the first of these units.
fn write_size(line: &mut LineText, size: Size, units: &[Unit]) -> Result<(), NoMemory>
    ensures { OnOk result (line.new ≡ put line.old (size_word size units.now ∷ [])) }
{
    match size {
        Size::Auto => line.word(b"auto"),
        Size::Absent => line.word(b"none"),
        Size::Normal => line.word(b"normal"),
        Size::Content => line.word(b"content"),
        Size::Length(px) => line.length(px, Units::new(units).next()),
        Size::Percent(thousandths) => line.percentage(thousandths),
    }
}

fn write_name(line: &mut LineText, name: Option<Name>) -> Result<(), NoMemory>
    ensures { OnOk result (line.new ≡ put line.old (name_words name)) }
{
    match name {
        Some(name) => line.word(name.bytes()),
        None => Ok(()),
    }
}

fn write_numbered(line: &mut LineText, number: i64, name: Option<Name>) -> Result<(), NoMemory>
    ensures { OnOk result (line.new ≡ put line.old (integer number ∷ name_words name)) }
{
    line.integer(number)?;
    write_name(line, name)
}

fn write_line_value(line: &mut LineText, value: LineValue) -> Result<(), NoMemory>
    ensures { OnOk result (line.new ≡ put line.old (line_words value)) }
{
    match value {
        LineValue::Auto => line.word(b"auto"),
        LineValue::Line(number, name) => write_numbered(line, number as i64, name),
        LineValue::Reach(count, name) => {
            line.word(b"span")?;
            write_numbered(line, count as i64, name)
        }
        LineValue::Named(name) => line.word(name.bytes()),
    }
}

fn axis_word(column: bool) -> &'static [u8]
    ensures { result.now ≡ axis_word column }
{
    if column { b"column" } else { b"row" }
}

fn box_word(border: bool) -> &'static [u8]
    ensures { result.now ≡ box_word border }
{
    if border {
        b"border-box"
    } else {
        b"content-box"
    }
}

fn wrap_word(wrap: bool) -> &'static [u8]
    ensures { result.now ≡ wrap_word wrap }
{
    if wrap { b"wrap" } else { b"nowrap" }
}

fn scroll_word(scroll: Scroll) -> &'static [u8]
    ensures { result.now ≡ scroll_word scroll }
{
    match scroll {
        Scroll::Visible => b"visible",
        Scroll::Clip => b"clip",
        Scroll::Hidden => b"hidden",
        Scroll::Scroll => b"scroll",
        Scroll::Auto => b"auto",
    }
}

fn mode_word(mode: AlignMode) -> &'static [u8]
    ensures { result.now ≡ mode_word mode }
{
    match mode {
        AlignMode::Auto => b"auto",
        AlignMode::Normal => b"normal",
        AlignMode::Stretch => b"stretch",
        AlignMode::Start => b"start",
        AlignMode::End => b"end",
        AlignMode::Center => b"center",
        AlignMode::FlexStart => b"flex-start",
        AlignMode::FlexEnd => b"flex-end",
        AlignMode::Between => b"space-between",
        AlignMode::Around => b"space-around",
        AlignMode::Evenly => b"space-evenly",
    }
}

fn write_flow(line: &mut LineText, column: bool, dense: bool) -> Result<(), NoMemory>
    ensures { OnOk result (line.new ≡ put line.old (flow_words column dense)) }
{
    line.word(axis_word(column))?;
    if dense { line.word(b"dense") } else { Ok(()) }
}

fn write_safe(line: &mut LineText, safe: Option<bool>) -> Result<(), NoMemory>
    ensures { OnOk result (line.new ≡ put line.old (safe_words safe)) }
{
    match safe {
        Some(true) => line.word(b"safe"),
        Some(false) => line.word(b"unsafe"),
        None => Ok(()),
    }
}

fn write_align(line: &mut LineText, align: Align) -> Result<(), NoMemory>
    ensures { OnOk result (line.new ≡ put line.old (align_words align)) }
{
    write_safe(line, align.safe)?;
    line.word(mode_word(align.mode))
}

/// Adds a value with the units of its lengths.
pub(crate) fn write_value(
    line: &mut LineText,
    alloc: Global,
    declared: &DeclaredValue,
) -> Result<(), NoMemory>
    ensures { OnOk result (line.new ≡ put line.old (value_words declared.now)) }
{
    let units = declared.units.written(alloc)?;
    let units = units.as_slice();
    match &declared.value {
        Value::Template(template) => write_template(line, alloc, template, units),
        Value::Areas(areas) => write_areas(line, alloc, areas),
        Value::Sizes(sizes) => write_sizes(line, sizes.as_slice(), units),
        Value::Flow { column, dense } => write_flow(line, *column, *dense),
        Value::Line(value) => write_line_value(line, *value),
        Value::Order(order) => line.integer(*order as i64),
        Value::Size(size) => write_size(line, *size, units),
        Value::BorderBox(border) => line.word(box_word(*border)),
        Value::Overflow(scroll) => line.word(scroll_word(*scroll)),
        Value::Align(align) => write_align(line, *align),
        Value::Column(column) => line.word(axis_word(*column)),
        Value::Wrap(wrap) => line.word(wrap_word(*wrap)),
        Value::Factor(thousandths) => line.factor(*thousandths),
    }
}
