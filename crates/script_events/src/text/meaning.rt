//! What a line of a script says, and what all lines say together.

use crate::{Event, Reload};
use route_json::Config;

/// What a line of a script is.
#[derive(Drop)]
pub enum Meaning {
    /// An empty line or a comment.
    Nothing,
    Says(Event),
    /// A configuration that is loaded.
    Loads(Config),
    Unreadable,
}

/// What lines say: the events and the configurations loaded before the first line that can't be read, the numbers of the events'
/// lines, and that line's number.
#[derive(Drop)]
pub struct Reading {
    pub events: Vec<Event>,
    pub reloads: Vec<Reload>,
    pub lines: Vec<usize>,
    pub unreadable: Option<usize>,
}
