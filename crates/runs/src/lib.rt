//! Lists in which a part that stands many times is held once.
#![tactic(auto)]

mod repeats;
mod runs;
#[cfg(test)]
mod tests;

pub use runs::Runs;
