//! Worked examples of what is printed of scripts where `examples_rows` can't say it: each call of a
//! script fails in each way, and a writer that fails.

#[cfg(test)]
mod full_writers;
#[cfg(test)]
mod stepped_scripts;
