//! Tests of the readers of text and of styles: the initial value of each property, and texts at the
//! bounds of the bytes of a line and of the nodes of a document. Documents with their boxes or
//! faults stand as data in the crate `corpus`. They stand above the crates that they test, so that
//! none of these is proved twice.
#![tactic(auto)]

#[cfg(test)]
mod limits;
#[cfg(test)]
mod styles;
#[cfg(test)]
mod texts;
