//! Ordered trees as the contracts of all crates see them: definitions and their laws alone. There is no code here.
#![tactic(auto)]
