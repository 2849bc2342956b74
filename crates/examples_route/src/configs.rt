//! Worked examples of configurations: names of routes and fields, addresses, and whole configurations with their faults. They
//! stand above the crates that they show, so that a change of an example proves the example alone.

#[cfg(test)]
mod addresses;
#[cfg(test)]
mod configurations;
#[cfg(test)]
mod limits;
#[cfg(test)]
mod names;
