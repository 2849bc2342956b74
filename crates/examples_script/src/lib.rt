//! Worked examples of scripts: their lines and what is wrong with them, scripts that are written as lines, and scripts as events.
//! They stand above the crates that they show, so that a change of an example proves the example alone.
#![tactic(auto)]

#[cfg(test)]
mod bad_lines;
#[cfg(test)]
mod driven_scripts;
#[cfg(test)]
mod escaped_bytes;
mod replays;
#[cfg(test)]
mod script_texts;
#[cfg(test)]
mod written_scripts;
