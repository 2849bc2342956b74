//! Gaps of trees, and why a configuration is refused.

use gate_coverage::Deleting;
use mc_types::{Op, ServerId};
use route_json::Config;
use route_tree::Place;

/// A gap: at this place a reply to the operation can show or copy an item of the server, and a delete of the kind can be
/// acknowledged with the server not cleared.
///
/// Source: mcgate's own.
#[derive(Clone, Copy)]
pub struct Gap {
    pub place: Place,
    pub server: ServerId,
    pub op: Op,
    pub deleting: Deleting,
}

/// Why a configuration is refused: the first of these that holds.
///
/// Source: mcgate's own.
#[derive(Clone, Copy)]
pub enum Reason {
    /// The tree has more than [`crate::places::PLACE_LIMIT`] places.
    TooManyPlaces,
    /// The certificate has a wrong number of classes (then the row is that of the smaller number), a class of a wrong
    /// modulus or with wrong runs (its first row), or a row that isn't valid: it isn't rising, lacks a server that is
    /// taken, or holds one that isn't cleared.
    BadCertificate(u32),
    /// The first gap. At its row it is told before what is wrong with the row.
    Uncovered(Gap),
    /// Memory was refused.
    NoMemory,
}

/// A configuration that wasn't accepted, given back, and why.
#[derive(Drop)]
pub struct Refused {
    pub config: Config,
    pub reason: Reason,
}
