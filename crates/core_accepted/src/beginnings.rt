//! How servers began.

ghost use Rattle.std.specs.Prelude.{◌≡◌};
ghost use Rattle.core_accepted.specs.Begun.{any_begun};

use gate_growth::ledger::Beginning;

/// What servers held before their first call.
#[derive(Clone, Copy)]
pub struct Beginnings {
    /// Those of the first configuration.
    pub opened: Beginning,
    /// Those that a later configuration brings.
    pub added: Beginning,
}

impl Beginnings {
    /// Each server may have held anything.
    pub fn any() -> Beginnings
        ensures { result ≡ any_begun }
    {
        Beginnings {
            opened: Beginning::Any,
            added: Beginning::Any,
        }
    }
}
