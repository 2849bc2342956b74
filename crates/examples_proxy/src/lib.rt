//! Worked examples of wires, in memory and over sockets, and of a proxy over a wire in memory.
#![tactic(auto)]

#[cfg(test)]
mod proxies;
#[cfg(test)]
mod scripts;
#[cfg(test)]
mod sockets;
pub mod starts;
