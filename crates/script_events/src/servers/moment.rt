//! The time of a script, with its bound.

ghost use Rattle.std.specs.Prelude.{pos, ◌≤ℤ◌};

/// A moment, in seconds, 0 or later.
#[derive(Clone, Copy)]
pub struct Moment {
    pub seconds: i64,
    ghost begun: { pos 0 ≤ℤ seconds },
}
