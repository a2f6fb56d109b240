//! When a leaf is measured again.
#![tactic(auto)]
