//! Laws of accepted trees. Each is a function without a body, whose contract is the law; code uses it by a call.

ghost use Rattle.gate_check.specs.Sound.{GenerationsAreFresh};
ghost use Rattle.gate_check.specs.Gate.{CertifiedIsFresh};
ghost use Rattle.gate_check.specs.Ends.{EndIsValid};

/// Every run over generations is fresh, whenever each of them was loaded.
pub fn generations_are_fresh()
    ensures { GenerationsAreFresh }
{}

/// A tree with a valid certificate covers itself, and every run of it is fresh.
pub fn certified_is_fresh()
    ensures { CertifiedIsFresh }
{}

/// Looks that all ended well make a valid certificate.
pub fn end_is_valid()
    ensures { EndIsValid }
{}
