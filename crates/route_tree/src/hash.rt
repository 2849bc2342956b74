//! FNV-1a in 32 bits.

ghost use Rattle.std.specs.Prelude.{◌≡◌};
ghost use Rattle.route_tree.specs.Fnv.{fnv1a};

/// The offset basis of FNV-1a for 32 bits.
pub const OFFSET_BASIS: u32 = 2_166_136_261;

/// The prime of FNV-1a for 32 bits.
pub const PRIME: u32 = 16_777_619;

/// The FNV-1a hash of 32 bits, bytes taken as 0..=255. It takes no memory.
///
/// Source: Fowler, Noll and Vo, "FNV Hash", FNV-1a.
pub fn fnv1a_32(bytes: &[u8]) -> u32
    ensures { result ≡ fnv1a bytes.now }
{
    let mut hash = OFFSET_BASIS;
    for byte in bytes {
        hash = (hash ^ u32::from(*byte)).wrapping_mul(PRIME);
    }
    hash
}
