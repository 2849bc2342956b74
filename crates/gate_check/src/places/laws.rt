//! Laws of places and certificates. Each is a function without a body, whose contract is the law; proofs cite its lemma.

ghost use Rattle.gate_check.specs.Places.{SoundIsCovered};
ghost use Rattle.gate_check.specs.ValidLaws.{ValidIsSound, LooksAreEnough};

/// Where each tree covers itself and the later ones at all their places, deletes clear what later commands take.
pub fn sound_is_covered()
    ensures { SoundIsCovered }
{}

/// A tree with a valid certificate covers itself.
pub fn valid_is_sound()
    ensures { ValidIsSound }
{}

/// One look for each residue of a class's own modulus is enough.
pub fn looks_are_enough()
    ensures { LooksAreEnough }
{}
