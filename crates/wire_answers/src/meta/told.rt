//! What the return tokens of a line say.

ghost use Rattle.std.specs.Prelude.{◌≡◌};
ghost use Rattle.std.specs.Option.{option_map};
ghost use Rattle.wire_answers.specs.Told.{fields_told, none_told};

use mc_types::{Body, Fields};

/// What the return tokens of a line say: the item's values, and whether the key and the opaque text came back.
#[derive(Clone, Copy)]
pub struct Told {
    pub cas: Option<u64>,
    pub ttl: Option<i64>,
    pub flags: Option<u32>,
    pub size: Option<u32>,
    pub key: bool,
    pub opaque: bool,
}

impl Told {
    /// No token says anything.
    pub fn none() -> Told
        ensures { result ≡ none_told }
    {
        Told {
            cas: None,
            ttl: None,
            flags: None,
            size: None,
            key: false,
            opaque: false,
        }
    }

    /// What stands beside the code of the answer, with these data or without.
    pub fn fields(self, body: Option<Body>) -> Fields
        ensures { result ≡ fields_told self body }
    {
        Fields {
            body,
            cas: self.cas,
            flags: self.flags,
            size: self.size,
            ttl: self.ttl,
        }
    }
}
