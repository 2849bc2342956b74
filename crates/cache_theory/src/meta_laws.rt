//! The law of a server's table.

ghost use Rattle.cache_theory.specs.Alike.{MetaGetsAreServedAlike};

/// A server that is asked the meta form of a classic get finds and leaves what it does where it is asked the get itself, and the classic
/// answer says the same as the one that it gives.
pub fn meta_gets_are_served_alike()
    ensures { MetaGetsAreServedAlike }
{}
