//! Tests of the arena of nodes and of kept answers at their limits. What an edit reaches stands in
//! `page_tests`, and whole documents with their boxes in the crate `corpus`. They stand above the
//! crates that they test, so that none of these is proved twice.
#![tactic(auto)]

#[cfg(test)]
mod arenas;
#[cfg(test)]
mod caches;
