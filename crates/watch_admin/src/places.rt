//! The places of those who are connected, of which there are 16, and what they may take.

ghost use Rattle.std.specs.Prelude.{◌≡◌, IfOk, length};

use mio::Token;
use std::alloc::{AllocError, Global};

/// So many may be there at once.
pub const PLACES: usize = 16;

/// One is closed after so many milliseconds.
pub const MOST_MS: u64 = 5_000;

/// So many are accepted in a turn.
pub const ACCEPTS: usize = 64;

/// No wait tells of more.
pub const EVENTS: usize = 64;

/// What listens for them; each of them has its place.
pub const LISTENER: Token = Token(PLACES);

/// So many places, each of which is free.
pub fn free_places<T: Drop>(alloc: Global) -> Result<Vec<Option<T>>, AllocError>
    ensures { IfOk result (λ places. length places.items ≡ PLACES) }
{
    let mut places = Vec::new(alloc);
    for _ in 0..PLACES {
        places.push(None)?;
    }
    Ok(places)
}
