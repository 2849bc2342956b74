//! The faults of a configuration, and what is printed of each.

ghost use Rattle.std.specs.Prelude.{Some};
ghost use Rattle.route_json.specs.Printed.{fault_line};

use std::alloc::{AllocError, AllocFailed, Global};
use std::error::Error;
use std::fmt;
use std::fmt::Display;
use text_words::escapes::Escaped;

/// The first fault of a configuration. `Display` writes what mcgate prints of it after `config: `.
///
/// Source: mcgate's own.
#[derive(Debug, Drop)]
pub enum ConfigFault {
    /// The text is no JSON, or no object.
    NotJson,
    /// A field that is missing, of the wrong kind, out of range or not known, or the name of no operation.
    BadField(String),
    /// A server's text says no server, or one whose epoch is over.
    BadAddress(String),
    /// The pool has no servers.
    EmptyPool(String),
    /// The pool has more than 1,024 servers, or with it there are more than 4,294,967,295 in all.
    TooManyServers(String),
    /// The servers of the pool have more than 2,048 slots in all.
    TooManySlots(String),
    /// A route is nested more than 32 deep.
    TooDeep,
    /// There are more than 4,096 routes, each counted three times for every `cold` that it stands in.
    TooManyNodes,
    /// There is no route of this name.
    UnknownType(String),
    /// There is no pool of this name.
    NoPool(String),
    /// A list of children is empty.
    EmptyChildren,
    /// A policy's name is no prefix of a key.
    BadPrefix(String),
    /// Memory was refused.
    NoMemory,
}

impl From<AllocError> for ConfigFault {
    ghost use Rattle.std.specs.Prelude.{◌≡◌};
    ghost use Rattle.route_json.specs.declared.fault.ConfigFault.TheVariants.{NoMemory};

    ghost from_gives = { λ _ e. e ≡ NoMemory };

    fn from(_error: AllocError) -> ConfigFault {
        ConfigFault::NoMemory
    }
}

impl<T: Drop> From<AllocFailed<T>> for ConfigFault {
    ghost use Rattle.std.specs.Prelude.{◌≡◌};
    ghost use Rattle.route_json.specs.declared.fault.ConfigFault.TheVariants.{NoMemory};

    ghost from_gives = { λ _ e. e ≡ NoMemory };

    fn from(_error: AllocFailed<T>) -> ConfigFault {
        ConfigFault::NoMemory
    }
}

impl Display for ConfigFault {
    ghost output = { λ e. Some (fault_line e) };

    fn fmt<W: fmt::Write>(&self, f: &mut fmt::Formatter<W>) -> fmt::Result {
        match self {
            ConfigFault::NotJson => f.write_str("not JSON"),
            ConfigFault::BadField(name) => {
                f.write_str("bad field ")?;
                Escaped(name.as_bytes()).fmt(f)
            }
            ConfigFault::BadAddress(text) => {
                f.write_str("bad address ")?;
                Escaped(text.as_bytes()).fmt(f)
            }
            ConfigFault::EmptyPool(name) => {
                f.write_str("empty pool ")?;
                Escaped(name.as_bytes()).fmt(f)
            }
            ConfigFault::TooManyServers(name) => {
                f.write_str("too many servers in ")?;
                Escaped(name.as_bytes()).fmt(f)
            }
            ConfigFault::TooManySlots(name) => {
                f.write_str("too many slots in ")?;
                Escaped(name.as_bytes()).fmt(f)
            }
            ConfigFault::TooDeep => f.write_str("too deep"),
            ConfigFault::TooManyNodes => f.write_str("too many routes"),
            ConfigFault::UnknownType(name) => {
                f.write_str("unknown route ")?;
                Escaped(name.as_bytes()).fmt(f)
            }
            ConfigFault::NoPool(name) => {
                f.write_str("no pool ")?;
                Escaped(name.as_bytes()).fmt(f)
            }
            ConfigFault::EmptyChildren => f.write_str("no children"),
            ConfigFault::BadPrefix(text) => {
                f.write_str("bad prefix ")?;
                Escaped(text.as_bytes()).fmt(f)
            }
            ConfigFault::NoMemory => f.write_str("out of memory"),
        }
    }
}

impl Error for ConfigFault {}
