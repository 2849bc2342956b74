//! A law of the lines of keys: a function without a body, whose contract is the law.

ghost use Rattle.core_commands.specs.Lines.{NobodyIsPassed};

/// Who stands in the line of a key is passed by nobody who comes after it.
pub fn nobody_is_passed()
    ensures { NobodyIsPassed }
{}
