//! Which servers had a key of a slot by earlier lists of slots.

ghost use Rattle.std.specs.Prelude.{◌≡◌, ◌≢◌, ℕ, ◌%◌, ◌<◌, Some, slice_get, nat_eq, ◌&&◌, true, false, map};
ghost use Rattle.gate_plan.specs.Slots.{NeverHadBy, NeverHad};

use mc_types::ServerId;

// The greatest common divisor.
fn common_divisor(a: usize, b: usize) -> usize {
    let mut a = a;
    let mut b = b;
    // (Each two steps halve what is left.)
    for _step in 0..128 {
        if b == 0 {
            return a;
        }
        let rest = a % b;
        a = b;
        b = rest;
    }
    1
}

// Whether a slot is the server's and has the same residue as another.
fn is_residue(holder: ServerId, server: ServerId, at: usize, slot: usize, modulus: usize) -> bool
    requires { 0 < modulus }
    ensures { result ≡ (nat_eq holder server && nat_eq (at % modulus) (slot % modulus)) }
{
    holder == server && at % modulus == slot % modulus
}

// Whether one of these slots that has the same residue as this one is the server's.
fn has_residue(slots: &[ServerId], server: ServerId, slot: usize, modulus: usize) -> bool
    requires { 0 < modulus }
    ensures { result ≡ false → (i : ℕ) → slice_get slots.now i ≡ Some server → i % modulus ≢ slot % modulus }
{
    for at in 0..slots.len() {
        if is_residue(slots[at], server, at, slot, modulus) {
            return true;
        }
    }
    false
}

// Whether a server had no key of this slot, of so many, by these slots.
fn never_had_by(slots: &[ServerId], server: ServerId, slot: usize, count: usize) -> bool
    ensures { result ≡ true → NeverHadBy count slot server slots.now }
{
    let divisor = common_divisor(count, slots.len());
    if divisor == 0 || count % divisor != 0 || slots.len() % divisor != 0 {
        return false;
    }
    !has_residue(slots, server, slot, divisor)
}

/// Whether a server had no key of this slot, of so many, by any of these lists.
pub fn never_had(earlier: &[Vec<ServerId>], server: ServerId, slot: usize, count: usize) -> bool
    ensures { result ≡ true → NeverHad count slot server (map (λ v. v.items) earlier.now) }
{
    match earlier {
        [] => true,
        [first, rest @ ..] => {
            never_had_by(first, server, slot, count) && never_had(rest, server, slot, count)
        }
    }
}
