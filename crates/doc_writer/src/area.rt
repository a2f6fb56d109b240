//! The strings of `grid-template-areas` (CSS Grid 2, section 7.3).

ghost use Rattle.std.specs.Prelude.{◌≡◌, ◌≤◌, ◌<◌, ◌*◌, ◌+◌, ◌++◌, ◌∷◌, [], true, length, take, drop, codes, IfOk, OnOk};
ghost use Rattle.doc_writer.specs.Areas.{cell_word, quote_if, cells_from, row_words, rows_from, areas_words};
ghost use Rattle.doc_writer.specs.Marks.{mark_word, marks_words, string_words, limited, AreMarks, SetsRun, SetsArea};
ghost use Rattle.doc_writer.specs.Spaces.{put};

use crate::line::LineText;
use lunit::{Area, Name, NoMemory, Span};
use std::alloc::Global;
use style_types::Areas;

/// The first row or column of the span, of so many.
fn first_of(span: Span, most: usize) -> usize
    ensures { result ≡ limited span.start most }
{
    if span.start < 0 {
        0
    } else {
        (span.start as usize).min(most)
    }
}

/// The row or column after the last of the span, of so many.
fn end_of(span: Span, most: usize) -> usize
    ensures { result ≡ limited span.end most }
{
    if span.end < 0 {
        0
    } else {
        (span.end as usize).min(most)
    }
}

#[tactic(auto, using(crate::proofs::Marks::runs))]
/// Gives the cells from a start to an end this mark.
fn mark_run(marks: &mut [usize], start: usize, end: usize, mark: usize)
    requires { end ≤ length marks.old }
    ensures { SetsRun start end mark marks.old marks.new }
{
    for k in start..end {
        marks[k] = mark;
    }
}

/// Gives the cells of the area this mark.
fn mark_area(marks: &mut [usize], rows: usize, columns: usize, area: Area, mark: usize)
    requires { length marks.old ≡ rows * columns }
    ensures { SetsArea columns area mark marks.old marks.new }
{
    let left = first_of(area.columns, columns);
    let right = end_of(area.columns, columns);
    let top = first_of(area.rows, rows);
    let bottom = end_of(area.rows, rows);
    for row in top..bottom {
        mark_run(marks, row * columns + left, row * columns + right, mark);
    }
}

#[tactic(auto, using(crate::proofs::Marks::no_marks, crate::proofs::Marks::marks_more))]
/// The marks of the cells by the areas, of which the first counts where several have a cell.
fn marks_of(alloc: Global, areas: &Areas) -> Result<Vec<usize>, NoMemory>
    ensures cells { IfOk result (λ marks. length marks.items ≡ areas.now.rows * areas.now.columns) }
    ensures marks { IfOk result
        (λ marks. AreMarks areas.now.columns 0 areas.now.named marks.items) }
{
    let rows = areas.rows as usize;
    let columns = areas.columns as usize;
    let named = areas.named.as_slice();
    let mut marks = Vec::new(alloc);
    marks.resize(rows * columns, 0)?;
    let mut index = named.len();
    while index > 0 {
        index -= 1;
        mark_area(&mut marks, rows, columns, named[index].1, index + 1);
    }
    Ok(marks)
}

// ---- the words of cells

fn quote_if(quotes: bool) -> &'static [u8]
    ensures { result.now ≡ quote_if quotes }
{
    if quotes { b"\"" } else { b"" }
}

/// Writes a text at a place, and answers where it ends.
fn put_text(room: &mut [u8; 66], at: usize, text: &[u8]) -> usize
    requires { at + length text.now ≤ 66 }
    ensures end { result ≡ at + length text.now }
    ensures text { take result room.new ≡ take at room.old ++ text.now }
{
    let end = at + text.len();
    room[at..end].copy_from_slice(text);
    end
}

/// Adds the word of a cell, with the quotes of its string where it begins or ends one.
fn write_cell(line: &mut LineText, opens: bool, cell: &[u8], closes: bool) -> Result<(), NoMemory>
    requires { length cell.now ≤ 64 }
    ensures { OnOk result
        (line.new ≡ put line.old ((quote_if opens ++ (cell.now ++ quote_if closes)) ∷ [])) }
{
    let mut room = [0; 66];
    let start = put_text(&mut room, 0, quote_if(opens));
    let middle = put_text(&mut room, start, cell);
    let end = put_text(&mut room, middle, quote_if(closes));
    line.word(&room[..end])
}

/// What is written of a cell with this mark.
fn mark_word(named: &[(Name, Area)], mark: usize) -> &[u8]
    ensures word { result.now ≡ mark_word named.now mark }
    ensures short { length result.now ≤ 64 }
{
    if mark == 0 {
        return b".";
    }
    match named.get(mark - 1) {
        Some((name, _)) => name.bytes(),
        None => b".",
    }
}

#[tactic(auto, using(crate::proofs::Kept::put_more, crate::proofs::Kept::put_none))]
/// Adds the cells of a row, which have these marks.
fn write_cells(line: &mut LineText, named: &[(Name, Area)], marks: &[usize]) -> Result<(), NoMemory>
    ensures { OnOk result (line.new ≡ put line.old (marks_words true named.now marks.now)) }
{
    let mut left = marks;
    let mut opens = true;
    while let Some((mark, rest)) = left.split_first() {
        write_cell(line, opens, mark_word(named, *mark), rest.is_empty())?;
        left = rest;
        opens = false;
    }
    Ok(())
}

/// Adds the string of a row, whose cells have these marks.
fn write_row(line: &mut LineText, named: &[(Name, Area)], marks: &[usize]) -> Result<(), NoMemory>
    ensures { OnOk result (line.new ≡ put line.old (string_words named.now marks.now)) }
{
    if marks.is_empty() {
        return line.word(b"\"\"");
    }
    write_cells(line, named, marks)
}

/// The marks of a row.
fn row_of(marks: &[usize], columns: usize, row: usize) -> &[usize]
    requires { row * columns + columns ≤ length marks.now }
    ensures { result.now ≡ take columns (drop (row * columns) marks.now) }
{
    let (_, from_row) = marks.split_at(row * columns);
    let (of_row, _) = from_row.split_at(columns);
    of_row
}

#[tactic(auto, using(crate::proofs::Kept::put_more, crate::proofs::Kept::put_none, crate::proofs::Marks::row_marks, crate::proofs::Marks::rows_next, crate::proofs::Marks::rows_last))]
/// Adds the strings of the rows.
fn write_rows(line: &mut LineText, areas: &Areas, marks: &[usize]) -> Result<(), NoMemory>
    requires cells { length marks.now ≡ areas.now.rows * areas.now.columns }
    requires marks { AreMarks areas.now.columns 0 areas.now.named marks.now }
    ensures { OnOk result
        (line.new ≡ put line.old (rows_from areas.now.named areas.now.columns 0 areas.now.rows)) }
{
    let columns = areas.columns as usize;
    for row in 0..areas.rows as usize {
        write_row(line, areas.named.as_slice(), row_of(marks, columns, row))?;
    }
    Ok(())
}

/// Adds the areas.
pub(crate) fn write_areas(
    line: &mut LineText,
    alloc: Global,
    areas: &Option<Areas>,
) -> Result<(), NoMemory>
    ensures { OnOk result (line.new ≡ put line.old (areas_words areas.now)) }
{
    match areas {
        Some(areas) => {
            let marks = marks_of(alloc, areas)?;
            write_rows(line, areas, &marks)
        }
        None => line.word(b"none"),
    }
}
