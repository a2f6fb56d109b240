//! Numbers as they are written.

ghost use Rattle.std.specs.Prelude.{◌≡◌, ◌+◌, ◌*◌, ◌≤◌, ◌<◌, ◌++◌, ◌∷◌, [], length, take, unsigned_abs, decimal, codes, OnOk};
ghost use Rattle.lunit.specs.Decimals.{IsScale};
ghost use Rattle.lunit.specs.Printed.{minus_of};
ghost use Rattle.doc_writer.specs.Numbers.{decimals, number, integer, px_number, factor, percentage, length_word};
ghost use Rattle.doc_writer.specs.Spaces.{put};

use crate::line::LineText;
use itoa::Buffer;
use lunit::{Lu, NoMemory, six_digits, without_last_zeros};
use style_types::Unit;

/// The parts of one of which a length in px is made.
const PX: u32 = 64;

/// The parts of one of which a factor or a percentage is made.
const THOUSANDTHS: u32 = 1000;

/// The parts of one of which a length with a relative unit is made.
const MILLIONTHS: u32 = 1_000_000;

/// Writes a text at a place, and answers where it ends.
fn put_text(room: &mut [u8; 32], at: usize, text: &[u8]) -> usize
    requires { at + length text.now ≤ 32 }
    ensures end { result ≡ at + length text.now }
    ensures text { take result room.new ≡ take at room.old ++ text.now }
{
    let end = at + text.len();
    room[at..end].copy_from_slice(text);
    end
}

fn put_minus(room: &mut [u8; 32], parts: i64) -> usize
    ensures short { result ≤ 1 }
    ensures text { take result room.new ≡ minus_of parts }
{
    if parts < 0 {
        put_text(room, 0, b"-")
    } else {
        0
    }
}

fn put_whole(room: &mut [u8; 32], at: usize, whole: u64) -> usize
    requires { at ≤ 1 }
    ensures short { result ≤ 21 }
    ensures text { take result room.new ≡ take at room.old ++ decimal whole }
{
    let mut buffer = Buffer::new();
    put_text(room, at, buffer.format(whole).as_bytes())
}

fn put_decimals(room: &mut [u8; 32], at: usize, scale: u32, parts: u32) -> usize
    requires room { at ≤ 21 }
    requires scale { IsScale scale }
    requires parts { parts < scale }
    ensures short { result ≤ 28 }
    ensures text { take result room.new ≡ take at room.old ++ decimals scale parts }
{
    let digits = six_digits(parts * (1_000_000 / scale));
    let shown = without_last_zeros(&digits);
    if shown.is_empty() {
        return at;
    }
    let digits_start = put_text(room, at, b".");
    put_text(room, digits_start, shown)
}

#[tactic(auto, unfolding(crate::specs::Numbers::number))]
/// Writes so many parts, of which `scale` are one, as an exact decimal, and answers where it ends.
fn put_number(room: &mut [u8; 32], scale: u32, parts: i64) -> usize
    requires { IsScale scale }
    ensures short { result ≤ 28 }
    ensures text { take result room.new ≡ number scale parts }
{
    let size = parts.unsigned_abs();
    let start = put_minus(room, parts);
    let point = put_whole(room, start, size / scale as u64);
    put_decimals(room, point, scale, (size % scale as u64) as u32)
}

impl LineText {
    /// Adds so many parts, of which `scale` are one, as an exact decimal with its unit.
    pub(crate) fn number(&mut self, scale: u32, parts: i64, unit: &[u8]) -> Result<(), NoMemory>
        requires scale { IsScale scale }
        requires unit { length unit.now ≤ 3 }
        ensures { OnOk result (self.new ≡ put self.old ((number scale parts ++ unit.now) ∷ [])) }
    {
        let mut room = [0; 32];
        let start = put_number(&mut room, scale, parts);
        let end = put_text(&mut room, start, unit);
        self.word(&room[..end])
    }

    /// Adds a whole number.
    pub(crate) fn integer(&mut self, number: i64) -> Result<(), NoMemory>
        ensures { OnOk result (self.new ≡ put self.old (integer number ∷ [])) }
    {
        self.number(1, number, b"")
    }

    /// Adds a number of px without a unit.
    pub(crate) fn px(&mut self, size: Lu) -> Result<(), NoMemory>
        ensures { OnOk result (self.new ≡ put self.old (px_number size ∷ [])) }
    {
        self.number(PX, size.units(), b"")
    }

    /// Adds a factor in thousandths.
    pub(crate) fn factor(&mut self, thousandths: u32) -> Result<(), NoMemory>
        ensures { OnOk result (self.new ≡ put self.old (factor thousandths ∷ [])) }
    {
        self.number(THOUSANDTHS, thousandths as i64, b"")
    }

    /// Adds a percentage in thousandths of a percent.
    pub(crate) fn percentage(&mut self, thousandths: u32) -> Result<(), NoMemory>
        ensures { OnOk result (self.new ≡ put self.old (percentage thousandths ∷ [])) }
    {
        self.number(THOUSANDTHS, thousandths as i64, b"%")
    }

    /// Adds a factor with `fr`, in thousandths.
    pub(crate) fn flex(&mut self, thousandths: u32) -> Result<(), NoMemory>
        ensures { OnOk result (self.new ≡ put self.old ((factor thousandths ++ codes "fr") ∷ [])) }
    {
        self.number(THOUSANDTHS, thousandths as i64, b"fr")
    }

    /// Adds a length with its unit.
    pub(crate) fn length(&mut self, px: Lu, unit: Unit) -> Result<(), NoMemory>
        ensures { OnOk result (self.new ≡ put self.old (length_word px unit ∷ [])) }
    {
        match unit {
            Unit::Px => self.number(PX, px.units(), b"px"),
            Unit::Em(millionths) => self.number(MILLIONTHS, millionths, b"em"),
            Unit::Rem(millionths) => self.number(MILLIONTHS, millionths, b"rem"),
        }
    }
}
