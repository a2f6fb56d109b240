ghost use Rattle.std.specs.Prelude.{◌≡◌, ◌∷◌, [], true, map, MatchOption};
ghost use Rattle.std.specs.List.{list_all};
ghost use Rattle.track_text.specs.Words.{word_at, begins_with, is_alone, ended, fits};

use std::marker::Model;
use text_scan::Token;

/// The words of a value from one of them on. Contracts see the list of their bytes.
#[derive(Drop)]
pub struct Words<'a> {
    bytes: &'a [u8],
    tokens: &'a [Token],
}

impl<'a> Model for Words<'a> {
    ghost use Rattle.std.specs.Prelude.{◌≡◌, true, List, map};
    ghost use Rattle.std.specs.List.{list_all};
    ghost use Rattle.track_text.specs.Words.{Word, word_at, fits};

    ghost Value = { List Word };

    ghost view = { λ a. map (word_at a.bytes.now) a.tokens.now };

    ghost invariant = { λ a. list_all (fits a.bytes.now) a.tokens.now ≡ true };
}

impl<'a> Words<'a> {
    /// The words at these tokens of a value's bytes.
    pub fn new(bytes: &'a [u8], tokens: &'a [Token]) -> Words<'a>
        requires { list_all (fits bytes.now) tokens.now ≡ true }
        ensures { result ≡ map (word_at bytes.now) tokens.now }
    {
        Words { bytes, tokens }
    }

    /// The first word, and the words after it; `None` exactly where no word is left.
    pub fn first(self) -> Option<(&'a [u8], Words<'a>)>
        ensures { MatchOption result (self.entry ≡ [])
            (λ found. self.entry ≡ found.0.now ∷ found.1) }
    {
        let Words { bytes, tokens } = self;
        match tokens.split_first() {
            None => None,
            Some((token, tokens)) => {
                Some((&bytes[token.start..token.end], Words { bytes, tokens }))
            }
        }
    }

    /// Whether no words are left.
    pub fn ended(&self) -> bool
        ensures { result ≡ ended self.now }
    {
        self.tokens.is_empty()
    }

    /// Whether this word stands alone.
    pub fn are(&self, due: &[u8]) -> bool
        ensures { result ≡ is_alone due.now self.now }
    {
        match self.tokens {
            [token] => &self.bytes[token.start..token.end] == due,
            _ => false,
        }
    }

    /// Whether the first word is this one.
    pub fn begin_with(&self, due: &[u8]) -> bool
        ensures { result ≡ begins_with due.now self.now }
    {
        match self.tokens.first() {
            Some(token) => &self.bytes[token.start..token.end] == due,
            None => false,
        }
    }
}
