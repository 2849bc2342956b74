//! Numbers, made from a seed.

ghost use Rattle.std.specs.Prelude.{◌<◌};

/// The next number below the bound, and the seed after it.
pub fn pick(seed: &mut u32, below: u32) -> u32
    requires { 0 < below }
    ensures { result < below }
{
    *seed = seed.wrapping_mul(1_664_525).wrapping_add(1_013_904_223);
    (*seed >> 16) % below
}
