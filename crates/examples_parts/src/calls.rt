//! Worked examples below a proxy's end: an end of a connection over a wire in memory, the calls that are out at one server, and how
//! large stores go there.

#[cfg(test)]
mod ends;
#[cfg(test)]
mod large_stores;
#[cfg(test)]
mod links;
