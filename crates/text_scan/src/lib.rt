//! Lines and tokens: the bytes of a text, fed in pieces of any size, are read line by line, and a line is cut
//! into tokens.
#![tactic(auto)]

mod line;
mod lines;
mod pieces;
mod slices;
mod token;

pub use line::{BAD_BYTE, Fault, LINE_TOO_LONG, Line, MAX_LINE, Place};
pub use lines::{Lines, MAX_FED};
pub use pieces::read_lines;
pub use token::{Token, tokens, tokens_in};
