//! Laws of what is put. Each is a function without a body, whose contract is the law; code uses it by a call.

ghost use Rattle.gate_growth.specs.Exact.{PutsIsExact};

/// What is computed of the servers that commands put items on is what their words say.
pub fn puts_is_exact()
    ensures { PutsIsExact }
{}
