//! Why a configuration may not follow others.

use gate_check::Gap;
use std::alloc::AllocError;

/// Why a configuration may not follow: the first of these that holds.
#[derive(Clone, Copy)]
pub enum Unsound {
    /// There were as many generations as have a number, 4,294,967,295.
    TooManyGenerations,
    /// Its tree and those so far together have more than [`gate_check::places::PLACE_LIMIT`] places.
    TooManyPlaces,
    /// The first gap: the tree takes the server, and the tree of this generation, counted from 1, is the first that may have
    /// left an item there: one so far, or the tree itself. It is that of the earliest generation, then at the first place,
    /// then of the smallest server.
    Left(u32, Gap),
    /// Memory was refused.
    NoMemory,
}

impl From<AllocError> for Unsound {
    ghost use Rattle.std.specs.Prelude.{◌≡◌};
    ghost use Rattle.gate_growth.specs.declared.ledger.unsound.Unsound.TheVariants.{NoMemory};

    ghost from_gives = { λ _ e. e ≡ NoMemory };

    fn from(_error: AllocError) -> Unsound {
        Unsound::NoMemory
    }
}
