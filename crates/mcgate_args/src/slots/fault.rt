//! Why `mcgate slots` has no table.

use route_json::ConfigFault;
use std::alloc::{AllocError, AllocFailed};
use std::fmt;
use std::fmt::Display;
use text_words::escapes::Escaped;

/// Why there is no table of slots.
#[derive(Drop)]
pub enum SlotsFault<'a> {
    /// The text says no configuration.
    Config(ConfigFault),
    /// The text of the earlier file of this number says no configuration.
    Earlier(usize, ConfigFault),
    NoPool(&'a str),
    /// There isn't one pool, and none is named.
    WhichPool,
    NoAddress(&'a str),
    /// The server has slots already.
    HasSlots(&'a str),
    /// The pool's list doesn't have it.
    NotThere(&'a str),
    /// No slots were found that may be moved so.
    NoWay,
    NoMemory,
}

impl From<AllocError> for SlotsFault<'_> {
    fn from(_error: AllocError) -> Self {
        SlotsFault::NoMemory
    }
}

impl<T: Drop> From<AllocFailed<T>> for SlotsFault<'_> {
    fn from(_error: AllocFailed<T>) -> Self {
        SlotsFault::NoMemory
    }
}

impl Display for SlotsFault<'_> {
    fn fmt<W: fmt::Write>(&self, f: &mut fmt::Formatter<W>) -> fmt::Result {
        match self {
            SlotsFault::Config(fault) | SlotsFault::Earlier(_, fault) => {
                f.write_str("config: ")?;
                fault.fmt(f)
            }
            SlotsFault::NoPool(name) => {
                f.write_str("slots: no pool ")?;
                Escaped(name.as_bytes()).fmt(f)
            }
            SlotsFault::WhichPool => f.write_str("slots: which pool: --pool says it"),
            SlotsFault::NoAddress(text) => {
                f.write_str("slots: bad address ")?;
                Escaped(text.as_bytes()).fmt(f)
            }
            SlotsFault::HasSlots(text) => {
                f.write_str("slots: has slots already: ")?;
                Escaped(text.as_bytes()).fmt(f)
            }
            SlotsFault::NotThere(text) => {
                f.write_str("slots: not in the pool: ")?;
                Escaped(text.as_bytes()).fmt(f)
            }
            SlotsFault::NoWay => {
                f.write_str("slots: no way: slots would go to servers that had them")
            }
            SlotsFault::NoMemory => f.write_str("out of memory"),
        }
    }
}
