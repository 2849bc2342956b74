//! What is wrong at a place of a configuration, and the way to that place.

use route_json::ConfigFault;
use route_json::names::Holder;
use std::alloc::AllocError;

/// A step on the way from a whole configuration to a part of it.
#[derive(Clone, Copy)]
pub enum PathStep<'a> {
    /// To the value of this name in an object.
    Name(&'a str),
    /// To the value of this number in a list, counted from 0.
    Number(usize),
}

/// What is wrong at a place of a configuration.
#[derive(Clone, Copy)]
pub enum Trouble<'a> {
    /// The object may have no such field.
    NoField(Holder, &'a str),
    /// The object wants this field.
    Missing(Holder, &'static str),
    /// Something else is wanted here.
    Wanted(&'static str),
    /// The text is no server's.
    NoServer(&'a str),
    /// The epoch of the server of this name is over: a server after it has its address.
    Over(&'a str),
    /// The pool has no servers.
    EmptyPool(&'a str),
    /// It has so many.
    TooManyServers(&'a str, usize),
    TooManySlots(&'a str),
    /// No server of the pool's list, which has so many, stands at the place that a slot names.
    NoPlace(usize),
    TooDeep,
    /// No route has this short text.
    NoShort(&'a str),
    /// No route has this type.
    NoType(&'a str),
    NoPool(&'a str),
    NoChildren,
    NoOperation(&'a str),
    NoPrefix(&'a str),
}

impl Trouble<'_> {
    /// Whether a name itself is wrong, and not the value that it has.
    pub fn is_of_name(&self) -> bool {
        matches!(
            self,
            Trouble::NoField(_, _) | Trouble::NoOperation(_) | Trouble::NoPrefix(_)
        )
    }

    /// Whether this is the fault that was found of the same configuration.
    pub fn is(&self, fault: &ConfigFault) -> bool {
        match (self, fault) {
            (
                Trouble::NoField(_, name) | Trouble::NoOperation(name),
                ConfigFault::BadField(found),
            ) => *name == found.as_str(),
            (Trouble::Missing(_, name), ConfigFault::BadField(found)) => { *name == found.as_str() }
            (Trouble::Wanted(_), ConfigFault::BadField(_) | ConfigFault::NotJson) => true,
            (Trouble::NoPlace(_), ConfigFault::BadField(found)) => found.as_str() == "slots",
            (Trouble::NoServer(text) | Trouble::Over(text), ConfigFault::BadAddress(found)) => {
                *text == found.as_str()
            }
            (Trouble::EmptyPool(name), ConfigFault::EmptyPool(found)) => { *name == found.as_str() }
            (Trouble::TooManyServers(name, _), ConfigFault::TooManyServers(found)) => {
                *name == found.as_str()
            }
            (Trouble::TooManySlots(name), ConfigFault::TooManySlots(found)) => {
                *name == found.as_str()
            }
            (Trouble::TooDeep, ConfigFault::TooDeep) => true,
            (Trouble::NoShort(name) | Trouble::NoType(name), ConfigFault::UnknownType(found)) =>
                *name == found.as_str(),
            (Trouble::NoPool(name), ConfigFault::NoPool(found)) => *name == found.as_str(),
            (Trouble::NoChildren, ConfigFault::EmptyChildren) => true,
            (Trouble::NoPrefix(text), ConfigFault::BadPrefix(found)) => { *text == found.as_str() }
            _ => false,
        }
    }
}

/// Why a walk over a configuration stopped.
#[derive(Clone, Copy)]
pub enum Stop<'a> {
    /// At the first trouble.
    Trouble(Trouble<'a>),
    /// Memory was refused.
    NoMemory,
}

impl From<AllocError> for Stop<'_> {
    fn from(_error: AllocError) -> Self {
        Stop::NoMemory
    }
}
