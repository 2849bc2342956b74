//! When a tree may follow others though they don't clear all that it takes: nothing was put there.
#![tactic(auto)]

pub mod laws;
pub mod ledger;
pub mod puts;
