ghost use Rattle.std.specs.Prelude.{◌≡◌, ◌+◌, ◌-◌, ◌<◌, ◌≤◌, ◌∷◌, ◌++◌, length, drop, slice_index_or, decimal};
ghost use Rattle.lunit.specs.Printed.{fraction_text, minus_of, printed};
ghost use Rattle.session.specs.Printing.{spaced, spaced_pair, box_line};

use itoa::write_digits;
use lunit::{Along, BLOCK, INLINE, Name, Rect};

/// The bytes of a room in which a line is made, from its end: a line feed, four numbers of at most
/// 28 bytes with a space before each, and a name of at most 64 bytes.
pub(crate) const ROOM: usize = 192;

/// What is printed of so many sixty-fourths: a point and the decimals, and nothing for none. It
/// stands at the end of its 8 bytes, of which the first says how many bytes it has.
static FRACTIONS: [[u8; 8]; 64] = [
    *b"\x00       ",
    *b"\x07.015625",
    *b"\x06 .03125",
    *b"\x07.046875",
    *b"\x05  .0625",
    *b"\x07.078125",
    *b"\x06 .09375",
    *b"\x07.109375",
    *b"\x04   .125",
    *b"\x07.140625",
    *b"\x06 .15625",
    *b"\x07.171875",
    *b"\x05  .1875",
    *b"\x07.203125",
    *b"\x06 .21875",
    *b"\x07.234375",
    *b"\x03    .25",
    *b"\x07.265625",
    *b"\x06 .28125",
    *b"\x07.296875",
    *b"\x05  .3125",
    *b"\x07.328125",
    *b"\x06 .34375",
    *b"\x07.359375",
    *b"\x04   .375",
    *b"\x07.390625",
    *b"\x06 .40625",
    *b"\x07.421875",
    *b"\x05  .4375",
    *b"\x07.453125",
    *b"\x06 .46875",
    *b"\x07.484375",
    *b"\x02     .5",
    *b"\x07.515625",
    *b"\x06 .53125",
    *b"\x07.546875",
    *b"\x05  .5625",
    *b"\x07.578125",
    *b"\x06 .59375",
    *b"\x07.609375",
    *b"\x04   .625",
    *b"\x07.640625",
    *b"\x06 .65625",
    *b"\x07.671875",
    *b"\x05  .6875",
    *b"\x07.703125",
    *b"\x06 .71875",
    *b"\x07.734375",
    *b"\x03    .75",
    *b"\x07.765625",
    *b"\x06 .78125",
    *b"\x07.796875",
    *b"\x05  .8125",
    *b"\x07.828125",
    *b"\x06 .84375",
    *b"\x07.859375",
    *b"\x04   .875",
    *b"\x07.890625",
    *b"\x06 .90625",
    *b"\x07.921875",
    *b"\x05  .9375",
    *b"\x07.953125",
    *b"\x06 .96875",
    *b"\x07.984375",
];

/// Puts a byte before what stands from `end` on, and answers where it is.
fn put_byte(room: &mut [u8; ROOM], end: usize, byte: u8) -> usize
    requires some { 0 < end }
    requires within { end ≤ 192 }
    ensures start { result + 1 ≡ end }
    ensures text { drop result room.new ≡ byte ∷ drop end room.old }
{
    room[end - 1] = byte;
    end - 1
}

/// Puts a text before what stands from `end` on, and answers where it starts.
fn put_text(room: &mut [u8; ROOM], end: usize, text: &[u8]) -> usize
    requires space { length text.now ≤ end }
    requires within { end ≤ 192 }
    ensures start { result + length text.now ≡ end }
    ensures text { drop result room.new ≡ text.now ++ drop end room.old }
{
    let start = end - text.len();
    room[start..end].copy_from_slice(text);
    start
}

/// The row of the table for so many sixty-fourths.
fn fraction(parts: usize) -> &'static [u8; 8]
    requires { parts < 64 }
    ensures short { slice_index_or result.now 0 0 ≤ 7 }
    ensures text { drop (8 - slice_index_or result.now 0 0) result.now ≡ fraction_text parts }
{
    &FRACTIONS[parts]
}

/// Puts the fraction of so many sixty-fourths before what stands from `end` on, and answers where
/// it starts.
fn put_fraction(room: &mut [u8; ROOM], end: usize, parts: usize) -> usize
    requires space { 8 ≤ end }
    requires within { end ≤ 192 }
    requires parts { parts < 64 }
    ensures before { result ≤ end }
    ensures short { end ≤ result + 7 }
    ensures text { drop result room.new ≡ fraction_text parts ++ drop end room.old }
{
    let row = fraction(parts);
    put_text(room, end, row);
    end - row[0] as usize
}

/// Puts a whole number before what stands from `end` on, and answers where it starts.
fn put_whole(room: &mut [u8; ROOM], end: usize, whole: u64) -> usize
    requires space { 20 ≤ end }
    requires within { end ≤ 192 }
    ensures before { result ≤ end }
    ensures short { end ≤ result + 20 }
    ensures text { drop result room.new ≡ decimal whole ++ drop end room.old }
{
    write_digits(whole, room, end)
}

fn put_minus(room: &mut [u8; ROOM], end: usize, units: i64) -> usize
    requires some { 0 < end }
    requires within { end ≤ 192 }
    ensures before { result ≤ end }
    ensures short { end ≤ result + 1 }
    ensures text { drop result room.new ≡ minus_of units ++ drop end room.old }
{
    if units < 0 {
        put_byte(room, end, b'-')
    } else {
        end
    }
}

#[inline(always)]
/// Puts a space and a number of px before what stands from `end` on, and answers where they start.
fn put_px(room: &mut [u8; ROOM], end: usize, units: i64) -> usize
    requires space { 29 ≤ end }
    requires within { end ≤ 192 }
    ensures before { result ≤ end }
    ensures short { end ≤ result + 29 }
    ensures text { drop result room.new ≡ spaced units ++ drop end room.old }
{
    let size = units.unsigned_abs();
    let point = put_fraction(room, end, (size % 64) as usize);
    let digits = put_whole(room, point, size / 64);
    let start = put_minus(room, digits, units);
    put_byte(room, start, b' ')
}

/// Puts two numbers of px, each with a space before it, before what stands from `end` on, and
/// answers where they start.
fn put_pair(room: &mut [u8; ROOM], end: usize, inline: Along<INLINE>, block: Along<BLOCK>) -> usize
    requires space { 58 ≤ end }
    requires within { end ≤ 192 }
    ensures before { result ≤ end }
    ensures short { end ≤ result + 58 }
    ensures text { drop result room.new ≡ spaced_pair inline block ++ drop end room.old }
{
    let middle = put_px(room, end, block.units());
    put_px(room, middle, inline.units())
}

/// Makes the line of a box at the end of the room, and answers where it starts.
pub(crate) fn put_box(room: &mut [u8; ROOM], name: &Name, rect: Rect) -> usize
    ensures within { result ≤ 192 }
    ensures text { drop result room.new ≡ box_line (name.now, rect) }
{
    let feed = put_byte(room, ROOM, b'\n');
    let sizes = put_pair(room, feed, rect.width, rect.height);
    let places = put_pair(room, sizes, rect.x, rect.y);
    put_text(room, places, name.bytes())
}
