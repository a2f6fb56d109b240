ghost use Rattle.std.specs.Prelude.{◌≡◌, ◌+◌, ◌/◌, ◌%◌, ◌^◌, ◌≤◌, ◌<◌, ◌++◌, length, take, unsigned_abs, Ok, decimal};
ghost use Rattle.lunit.specs.Decimals.{read_units};
ghost use Rattle.lunit.specs.Printed.{six_digits, without_last_zeros, fraction_text, minus_of, printed, IsExactly};

use itoa::Buffer;

/// The digit of a number at a place, which is a power of ten.
fn digit(number: u32, place: u32) -> u8
    requires { 0 < place }
    ensures { result ≡ 48 + number / place % 10 }
{
    b'0' + (number / place % 10) as u8
}

/// The last six decimal digits of a number, the highest first: what stands after the point of so many millionths.
pub fn six_digits(millionths: u32) -> [u8; 6]
    ensures { result ≡ six_digits millionths }
{
    [
        digit(millionths, 100_000),
        digit(millionths, 10_000),
        digit(millionths, 1_000),
        digit(millionths, 100),
        digit(millionths, 10),
        digit(millionths, 1),
    ]
}

#[tactic(auto, using(crate::proofs::Printing::step_left_out, crate::proofs::Printing::all_shown))]
/// Digits without the zeros at their end.
pub fn without_last_zeros(digits: &[u8]) -> &[u8]
    ensures { result.now ≡ without_last_zeros digits.now }
{
    let mut end = digits.len();
    while end > 0 && digits[end - 1] == b'0' {
        end -= 1;
    }
    &digits[..end]
}

/// Writes a text at a place, and answers where it ends.
fn put(out: &mut [u8; 32], at: usize, text: &[u8]) -> usize
    requires { at + length text.now ≤ 32 }
    ensures end { result ≡ at + length text.now }
    ensures text { take result out.new ≡ take at out.old ++ text.now }
{
    let end = at + text.len();
    out[at..end].copy_from_slice(text);
    end
}

#[tactic(auto, using(crate::proofs::Exactly::minus_written, crate::proofs::Exactly::minus_left_out))]
fn put_minus(out: &mut [u8; 32], units: i64) -> usize
    ensures short { result ≤ 1 }
    ensures text { take result out.new ≡ minus_of units }
{
    if units < 0 { put(out, 0, b"-") } else { 0 }
}

fn put_whole(out: &mut [u8; 32], at: usize, whole: u64) -> usize
    requires { at ≤ 1 }
    ensures short { result ≤ 21 }
    ensures text { take result out.new ≡ take at out.old ++ decimal whole }
{
    let mut buffer = Buffer::new();
    put(out, at, buffer.format(whole).as_bytes())
}

fn put_fraction(out: &mut [u8; 32], at: usize, parts: u32) -> usize
    requires room { at ≤ 21 }
    requires parts { parts < 64 }
    ensures short { result ≤ 28 }
    ensures text { take result out.new ≡ take at out.old ++ fraction_text parts }
{
    let digits = six_digits(parts * 15_625);
    let shown = without_last_zeros(&digits);
    if shown.is_empty() {
        return at;
    }
    let digits_start = put(out, at, b".");
    put(out, digits_start, shown)
}

fn put_px(out: &mut [u8; 32], units: i64) -> usize
    requires { unsigned_abs units ≤ 2 ^ 56 }
    ensures short { result ≤ 28 }
    ensures text { take result out.new ≡ printed units }
{
    let size = units.unsigned_abs();
    let whole_start = put_minus(out, units);
    let point = put_whole(out, whole_start, size / 64);
    put_fraction(out, point, (size % 64) as u32)
}

#[tactic(auto, using(crate::proofs::Exactly::printed_length))]
/// Writes the units as a decimal of px at the front of `out`, and answers its length: `-` where below zero, the whole
/// px, and where some is left a point and the exact decimals without zeros at their end (own rule). The decimal is
/// exactly units / 64, and `Lu::read` reads it back where its magnitude is at most 1,048,576 px.
pub fn px_text(units: i64, out: &mut [u8; 32]) -> usize
    requires { unsigned_abs units ≤ 2 ^ 56 }
    ensures short { result ≤ 28 }
    ensures length { result ≡ length (printed units) }
    ensures text { take result out.new ≡ printed units }
    ensures exact { IsExactly units (take result out.new) }
    ensures reads_back { unsigned_abs units ≤ 2 ^ 26 → read_units (take result out.new) ≡ Ok units }
{
    put_px(out, units)
}
