ghost use Rattle.std.specs.Prelude.{◌≡◌};
ghost use Rattle.std.specs.Str.{all_ascii_digits};
ghost use Rattle.command_words.specs.Commands.{number_of, nodes_of, within};

/// Whether all bytes are digits.
fn are_digits(text: &[u8]) -> bool
    ensures { result ≡ all_ascii_digits text.now }
{
    for byte in text {
        if !byte.is_ascii_digit() {
            return false;
        }
    }
    true
}

#[tactic(auto, using(crate::proofs::Digits::numbers))]
/// The number that a text of 1 to 20 decimal digits is, where it is below 2^64.
pub(crate) fn number_of(text: &str) -> Option<u64>
    ensures { result ≡ number_of text.now }
{
    if text.len() > 20 {
        return None;
    }
    if !are_digits(text.as_bytes()) {
        return None;
    }
    match text.parse::<u64>() {
        Ok(number) => Some(number),
        Err(_) => None,
    }
}

/// The number, where it is from 1 to 20,000.
fn within(number: u64) -> Option<u16>
    ensures { result ≡ within number }
{
    if number < 1 {
        return None;
    }
    if 20_000 < number {
        return None;
    }
    Some(number as u16)
}

#[tactic(auto, unfolding(crate::specs::Commands::nodes_of))]
/// The number of nodes that a text is: a number from 1 to 20,000.
pub(crate) fn nodes_of(text: &str) -> Option<u16>
    ensures { result ≡ nodes_of text.now }
{
    match number_of(text) {
        Some(number) => within(number),
        None => None,
    }
}
