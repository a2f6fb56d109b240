//! Tests of the parts of the layout: numbers at their bounds, and what no document shows. Whole
//! documents with their boxes stand in the crate `corpus`. They stand above the crates that they
//! test, so that none of these is proved twice.
#![tactic(auto)]

#[cfg(test)]
mod devices;
#[cfg(test)]
mod places;
#[cfg(test)]
mod spaces;
#[cfg(test)]
mod tracks;
#[cfg(test)]
mod units;
#[cfg(test)]
mod views;
