//! Worked examples of routes: hashes, plain trees, jobs of one command on small trees, the places
//! of trees, tables of slots, and what is written of certificates and histories. The gate's
//! verdicts are rows of `examples_rows`. They stand above the crates that they show, so that a
//! change of an example proves the example alone.
#![tactic(auto)]

#[cfg(test)]
mod certificates;
mod configs;
#[cfg(test)]
mod hashes;
#[cfg(test)]
mod histories;
#[cfg(test)]
mod jobs;
#[cfg(test)]
mod places;
#[cfg(test)]
mod route_trees;
#[cfg(test)]
mod tables;
#[cfg(test)]
mod trees;
