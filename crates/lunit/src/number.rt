ghost use Rattle.std.specs.Prelude.{◌≡◌, ◌*◌, ◌≤◌, ◌<◌, ◌+◌, ◌-◌, ◌/◌, ◌^◌, ◌&&◌, ◌||◌, ◌==◌, not, min, nat_lt, length, take, unsigned_abs, IfSome, IsTrue};
ghost use Rattle.std.specs.List.{list_all, list_any, position, position_or_len};
ghost use Rattle.lunit.specs.Decimals.{is_digit, all_digits, digits_number, is_point, has_minus, without_sign, whole_part, decimal_part, are_parts, decimal_or_none, number_of, is_number, signed, read_number, IsScale};
ghost use Rattle.lunit.specs.Rounded.{rounded_or_none, allows, size_of};

/// What numbers without a unit a text may have, and how they are read: the exact decimal times `scale`, truncated
/// toward zero (own rule).
#[derive(Clone, Copy, Debug, PartialEq, Eq)]
pub struct NumberForm {
    /// How many parts of one are counted. It divides 1,000,000.
    pub scale: u32,
    /// The greatest magnitude, before it is multiplied and truncated.
    pub most: u32,
    /// Whether the number may be below zero. `-0` is not below zero.
    pub below_zero: bool,
}

impl NumberForm {
    /// Lengths: px of a magnitude of at most 1,048,576, in units of 1/64 px (own rule).
    pub const LENGTHS: NumberForm = NumberForm {
        scale: 64,
        most: 1_048_576,
        below_zero: true,
    };

    /// Lengths of at least 0, in units of 1/64 px (own rule).
    pub const SIZES: NumberForm = NumberForm {
        scale: 64,
        most: 1_048_576,
        below_zero: false,
    };

    /// Numbers of value zero, which are lengths without a unit.
    pub const ZEROS: NumberForm = NumberForm {
        scale: 64,
        most: 0,
        below_zero: true,
    };

    /// Percentages from 0 to 1000, in thousandths of a percent (own rule).
    pub const PERCENTAGES: NumberForm = NumberForm {
        scale: 1000,
        most: 1000,
        below_zero: false,
    };

    /// Factors from 0 to 10,000, in thousandths (own rule).
    pub const FACTORS: NumberForm = NumberForm {
        scale: 1000,
        most: 10_000,
        below_zero: false,
    };

    /// Whole numbers of a magnitude of at most 1,000,000 (own rule).
    pub const INTEGERS: NumberForm = NumberForm {
        scale: 1,
        most: 1_000_000,
        below_zero: true,
    };

    /// Lengths relative to a font size: numbers of a magnitude of at most 10,000, in millionths (own rule).
    pub const RELATIVE_LENGTHS: NumberForm = NumberForm {
        scale: 1_000_000,
        most: 10_000,
        below_zero: true,
    };
}

/// As much of an exact decimal as it takes to read it in any form.
#[derive(Clone, Copy)]
struct Rounded {
    negative: bool,
    /// The whole number, limited to 2^32.
    whole: u64,
    /// The first six decimals.
    millionths: u64,
    /// Whether some decimal is above 0.
    has_rest: bool,
}

fn is_digit(byte: u8) -> bool
    ensures { result ≡ is_digit byte }
{
    byte.is_ascii_digit()
}

fn all_digits(text: &[u8]) -> bool
    ensures { result ≡ all_digits text.now }
{
    text.iter().all(|byte| is_digit(*byte))
}

fn has_minus(text: &[u8]) -> bool
    ensures { result ≡ has_minus text.now }
{
    match text.first() {
        Some(byte) => *byte == b'-',
        None => false,
    }
}

fn without_sign(text: &[u8]) -> &[u8]
    ensures { result.now ≡ without_sign text.now }
{
    match text.split_first() {
        Some((byte, rest)) if *byte == b'+' || *byte == b'-' => rest,
        _ => text,
    }
}

fn is_point(byte: u8) -> bool
    ensures { result ≡ is_point byte }
{
    byte == b'.'
}

fn first_point(text: &[u8]) -> Option<usize>
    ensures { result ≡ position is_point text.now }
{
    text.iter().position(|byte| is_point(*byte))
}

#[tactic(auto, using(crate::proofs::Numerals::found_or_length))]
/// Where the first point is; the length where there is none.
fn point_of(text: &[u8]) -> usize
    ensures value { result ≡ position_or_len is_point text.now }
    ensures within { result ≤ length text.now }
{
    first_point(text).unwrap_or(text.len())
}

fn whole_part(text: &[u8]) -> &[u8]
    ensures { result.now ≡ whole_part text.now }
{
    &text[..point_of(text)]
}

fn decimal_part(text: &[u8]) -> &[u8]
    ensures { result.now ≡ decimal_part text.now }
{
    let point = point_of(text);
    if point < text.len() {
        &text[point + 1..]
    } else {
        &[]
    }
}

#[tactic(auto, using(crate::proofs::Numerals::limited_more))]
/// The number that digits write, limited to 2^32.
fn limited(digits: &[u8]) -> u64
    ensures { result ≡ min 4294967296 (digits_number digits.now) }
{
    let mut number: u64 = 0;
    for digit in digits {
        number = (number * 10 + digit.saturating_sub(b'0') as u64).min(1 << 32);
    }
    number
}

#[tactic(auto, using(crate::proofs::Numerals::millionths_are))]
/// The first six of the decimals, as a number of millionths.
fn millionths(decimals: &[u8]) -> u64
    requires { IsTrue (all_digits decimals.now) }
    ensures { result ≡ digits_number decimals.now * 1000000 / 10 ^ length decimals.now }
{
    let first = &decimals[..decimals.len().min(6)];
    limited(first) * 10_u64.pow(6 - first.len() as u32)
}

fn is_above_zero_digit(digit: u8) -> bool
    ensures { result ≡ not (digit == 48) }
{
    digit != b'0'
}

fn has_digit_above_zero(digits: &[u8]) -> bool
    ensures { result ≡ list_any (λ digit. not (digit == 48)) digits.now }
{
    digits.iter().any(|digit| is_above_zero_digit(*digit))
}

#[tactic(auto, using(crate::proofs::Numerals::some_digit))]
/// Whether the digits write a number above 0.
fn is_above_zero(digits: &[u8]) -> bool
    requires { IsTrue (all_digits digits.now) }
    ensures { result ≡ nat_lt 0 (digits_number digits.now) }
{
    has_digit_above_zero(digits)
}

fn are_parts(whole: &[u8], decimals: &[u8]) -> bool
    ensures { result ≡ are_parts whole.now decimals.now }
{
    let are_digits = all_digits(whole) && all_digits(decimals);
    are_digits && whole.len() + decimals.len() > 0
}

#[tactic(auto, using(crate::proofs::Numerals::rounded_parts))]
/// The number of these parts, where they are the parts of one.
fn read_parts(negative: bool, whole: &[u8], decimals: &[u8]) -> Option<Rounded>
    ensures { result ≡ rounded_or_none (decimal_or_none negative whole.now decimals.now) }
{
    if !are_parts(whole, decimals) {
        return None;
    }
    Some(Rounded {
        negative,
        whole: limited(whole),
        millionths: millionths(decimals),
        has_rest: is_above_zero(decimals),
    })
}

/// Whether the text is digits alone, one at least.
fn is_whole(text: &[u8]) -> bool
    ensures { result ≡ (nat_lt 0 (length text.now) && all_digits text.now) }
{
    text.len() > 0 && all_digits(text)
}

#[tactic(auto, using(crate::proofs::Numerals::whole_alone))]
/// The number that the text is. Most are whole and have no sign, so these are read first.
fn read_rounded(text: &[u8]) -> Option<Rounded>
    ensures { result ≡ rounded_or_none (number_of text.now) }
{
    if is_whole(text) {
        return Some(Rounded {
            negative: false,
            whole: limited(text),
            millionths: 0,
            has_rest: false,
        });
    }
    let digits = without_sign(text);
    read_parts(has_minus(text), whole_part(digits), decimal_part(digits))
}

fn signed(negative: bool, size: u64) -> i64
    requires { size < 2 ^ 63 }
    ensures { result ≡ signed negative size }
{
    if negative {
        -(size as i64)
    } else {
        size as i64
    }
}

/// Whether the text is a number without a unit, of any size: an optional sign, digits, and optionally a point with
/// digits; the digits before or after the point may be missing, not both. Linear in the text.
pub fn is_number(text: &[u8]) -> bool
    ensures { result ≡ is_number text.now }
{
    let digits = without_sign(text);
    are_parts(whole_part(digits), decimal_part(digits))
}

impl NumberForm {
    fn allows(self, number: Rounded) -> bool
        ensures { result ≡ allows self number }
    {
        let most = self.most as u64;
        let is_zero = number.whole == 0 && !number.has_rest;
        let fits = number.whole < most || number.whole == most && !number.has_rest;
        fits && (self.below_zero || !number.negative || is_zero)
    }

    fn size_of(self, number: Rounded) -> u64
        requires scale { IsScale self.scale }
        requires whole { number.whole ≤ self.most }
        requires millionths { number.millionths < 1000000 }
        ensures { result ≡ size_of self number }
    {
        let scale = self.scale as u64;
        number.whole * scale + number.millionths / (1_000_000 / scale)
    }

    #[tactic(auto, using(crate::proofs::Allowed::reading))]
    /// The number in the text, times `scale` and truncated toward zero: an optional sign, digits, and optionally a point
    /// with digits; the digits before or after the point may be missing, not both. `None` exactly where the text is
    /// none, or one that the form does not allow, which is asked of the exact number. Linear in the text.
    pub fn read(self, text: &[u8]) -> Option<i64>
        requires { IsScale self.scale }
        ensures value { result ≡ read_number self text.now }
        ensures bound { IfSome result (λ number. unsigned_abs number ≤ self.most * self.scale) }
    {
        let number = read_rounded(text)?;
        if !self.allows(number) {
            return None;
        }
        Some(signed(number.negative, self.size_of(number)))
    }
}
