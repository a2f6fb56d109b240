//! Tests of pages: what the nodes of a page keep after a layout and an edit, and steps that are
//! taken back. The boxes of documents stand in the crate `corpus`. They stand above the crates that
//! they test, so that none of these is proved twice.
#![tactic(auto)]

#[cfg(test)]
mod edits;
#[cfg(test)]
mod kept;
#[cfg(test)]
mod pages;
#[cfg(test)]
mod steps;
