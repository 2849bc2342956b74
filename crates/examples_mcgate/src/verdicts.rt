//! Worked examples of what is printed of a configuration where `examples_rows` can't say it: a
//! writer that fails, a configuration that is to follow the one in use, pictures of gaps that the
//! gate doesn't find first, what is said of servers on which something is left.

#[cfg(test)]
mod fleets;
#[cfg(test)]
mod pictures;
#[cfg(test)]
mod plans;
#[cfg(test)]
mod verdicts;
