//! The places of trees, as a table, and certificates by runs of residues.

ghost use Rattle.std.specs.Prelude.{◌≡◌};
ghost use Rattle.route_tree.specs.Place.{prefix_text};

use gate_coverage::prefixes::prefix_text;
use mc_types::{Key, ServerId};

/// The most rows of a table: places of a tree, or of two together. mcgate's own.
pub const PLACE_LIMIT: u32 = 262_144;

/// The keys that this prefix begins, or none of the table's prefixes, where no longer one does.
#[derive(Clone, Copy)]
pub struct Class {
    pub prefix: Option<Key>,
    /// The least common multiple of the sizes of the pools that are left for the class, which divides the table's.
    pub modulus: u32,
}

impl Class {
    /// The text that stands for the class's keys: its prefix, or the empty text. It takes no memory.
    pub fn text(&self) -> &[u8]
        ensures { result.now ≡ prefix_text self.now.prefix }
    {
        prefix_text(&self.prefix)
    }
}

/// The places of a tree, or of two together: its classes, and in each the residues below the modulus.
#[derive(Drop)]
pub struct PlaceTable {
    pub modulus: u32,
    pub classes: Vec<Class>,
}

/// Why there is no table.
#[derive(Clone, Copy)]
pub enum PlaceFault {
    /// There are more than [`PLACE_LIMIT`] rows.
    TooManyPlaces,
    /// Memory was refused.
    NoMemory,
}

/// The servers of the residues from the first on, up to the next run.
#[derive(Drop)]
pub struct Run {
    pub first: u32,
    pub servers: Vec<ServerId>,
}

/// The runs of a class.
#[derive(Drop)]
pub struct ClassRows {
    pub modulus: u32,
    pub runs: Vec<Run>,
}

/// For each place a list of servers that its reads may take and its deletes clear.
#[derive(Drop)]
pub struct Certificate {
    pub classes: Vec<ClassRows>,
}
