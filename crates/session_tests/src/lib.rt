//! Tests of the top call and of the engine: failing devices, limits, words, what the ruler is asked
//! and what is kept. What is written for documents and scripts stands in the crate `corpus`. They
//! stand above `session`, so that it is not proved twice.
#![tactic(auto)]

#[cfg(test)]
mod cards;
#[cfg(test)]
mod counts;
#[cfg(test)]
mod devices;
#[cfg(test)]
mod engines;
#[cfg(test)]
mod fonts;
#[cfg(test)]
mod limits;
#[cfg(test)]
mod logs;
#[cfg(test)]
mod printed;
#[cfg(test)]
mod reach;
#[cfg(test)]
mod running;
#[cfg(test)]
mod stats;
#[cfg(test)]
mod words;
