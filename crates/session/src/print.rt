ghost use Rattle.std.specs.Prelude.{◌≡◌, ◌++◌, OnOk, IfOk, decimal};
ghost use Rattle.std.specs.List.{All};
ghost use Rattle.session.specs.BoxLines.{lines_join, lines_none};
ghost use Rattle.session.specs.Printing.{IsPrintableBox, box_line, box_lines, hit_line, layout_line, name_or_none, print, refusal};

use crate::box_text::{ROOM, put_box};
use box_layout::BoxSink;
use itoa::Buffer;
use lunit::{Name, NoMemory, Rect};
use std::alloc::Global;
use text_scan::Place;

fn append(out: &mut Vec<u8>, text: &[u8]) -> Result<(), NoMemory>
    ensures ok { OnOk result (out.new.items ≡ out.old.items ++ text.now) }
{
    out.extend_from_slice(text)?;
    Ok(())
}

fn append_number(out: &mut Vec<u8>, number: u32) -> Result<(), NoMemory>
    ensures ok { OnOk result (out.new.items ≡ out.old.items ++ decimal number) }
{
    let mut buffer = Buffer::new();
    append(out, buffer.format(number).as_bytes())
}

#[inline(always)]
/// Adds the line of a box, which is made in the room.
fn append_box(
    out: &mut Vec<u8>,
    room: &mut [u8; ROOM],
    name: &Name,
    rect: Rect,
) -> Result<(), NoMemory>
    ensures ok { OnOk result (out.new.items ≡ out.old.items ++ box_line (name.now, rect)) }
{
    let start = put_box(room, name, rect);
    append(out, &room[start..])
}

/// How many bytes to make room for at first for the line of a box.
const USUAL_LINE: usize = 32;

/// The text of a layout, to which the line of each box is added as the box comes.
#[derive(Drop)]
pub(crate) struct BoxText {
    /// What is written so far.
    pub(crate) text: Vec<u8>,
    /// Where a line is made.
    room: [u8; ROOM],
}

impl BoxText {
    /// The first line of the layout with the number k. Or `NoMemory`.
    pub(crate) fn new(alloc: Global, k: u32) -> Result<BoxText, NoMemory>
        ensures { IfOk result (λ made. made.text.items ≡ layout_line k) }
    {
        let mut text = Vec::new(alloc);
        append(&mut text, b"layout ")?;
        append_number(&mut text, k)?;
        append(&mut text, b"\n")?;
        Ok(BoxText {
            text,
            room: [0; ROOM],
        })
    }

    /// The text. Takes no memory.
    pub(crate) fn into_text(self) -> Vec<u8>
        ensures { result ≡ self.text }
    {
        let BoxText { text, .. } = self;
        text
    }
}

impl BoxSink for BoxText {
    ghost adds = { λ a b more. b.text.items ≡ a.text.items ++ box_lines more };

    ghost adds_none = { λ a. lines_none a.text.items };

    ghost adds_both = { λ a b c x y first second. lines_join a.text.items b.text.items c.text.items x y first second };

    // Room for lines of a usual length, so that the text is not moved while it grows.
    fn make_room(&mut self, count: usize) {
        let _ = self.text.reserve(count.saturating_mul(USUAL_LINE));
    }

    #[inline(always)]
    fn take(&mut self, name: &Name, rect: Rect) -> Result<(), NoMemory> {
        append_box(&mut self.text, &mut self.room, name, rect)
    }
}

/// The text of a layout with its number k: a line `layout k`, then for each box in order a line
/// `name x y width height` in px, each line with a line feed. Or `NoMemory`.
pub fn print_boxes(alloc: Global, k: u32, boxes: &[(Name, Rect)]) -> Result<Vec<u8>, NoMemory>
    requires { All IsPrintableBox boxes.now }
    ensures { IfOk result (λ text. text.items ≡ print k boxes.now) }
{
    let mut out = BoxText::new(alloc, k)?;
    out.make_room(boxes.len());
    for (name, rect) in boxes {
        out.take(name, *rect)?;
    }
    Ok(out.into_text())
}

/// The line of a refusal: `refused k L:C name` and a line feed, with the place and the name of the
/// fault. Or `NoMemory`.
pub(crate) fn print_refusal(
    alloc: Global,
    k: u32,
    place: Place,
    name: &[u8],
) -> Result<Vec<u8>, NoMemory>
    ensures { IfOk result (λ text. text.items ≡ refusal k place name.now) }
{
    let mut out = Vec::new(alloc);
    append(&mut out, b"refused ")?;
    append_number(&mut out, k)?;
    append(&mut out, b" ")?;
    append_number(&mut out, place.line)?;
    append(&mut out, b":")?;
    append_number(&mut out, place.column)?;
    append(&mut out, b" ")?;
    append(&mut out, name)?;
    append(&mut out, b"\n")?;
    Ok(out)
}

/// What is written of a box that was found: its name, or `-`.
fn name_or_none(found: &Option<Name>) -> &[u8]
    ensures { result.now ≡ name_or_none found.now }
{
    match found {
        Some(name) => name.bytes(),
        None => b"-",
    }
}

/// The line of a hit: `hit k NAME` or `hit k -`, and a line feed. Or `NoMemory`.
pub(crate) fn print_hit(alloc: Global, k: u32, found: &Option<Name>) -> Result<Vec<u8>, NoMemory>
    ensures { IfOk result (λ text. text.items ≡ hit_line k found.now) }
{
    let mut out = Vec::new(alloc);
    append(&mut out, b"hit ")?;
    append_number(&mut out, k)?;
    append(&mut out, b" ")?;
    append(&mut out, name_or_none(found))?;
    append(&mut out, b"\n")?;
    Ok(out)
}
