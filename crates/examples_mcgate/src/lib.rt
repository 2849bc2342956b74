//! Worked examples of the program: inputs, its arguments up to its exit status, and what it tells as it runs. They stand above the crates that they show,
//! so that a change of an example proves the example alone.
#![tactic(auto)]

#[cfg(test)]
mod faults;
#[cfg(test)]
mod inputs;
#[cfg(test)]
mod program_ends;
mod verdicts;
mod watch;
