// The vector generator of NXDN TS 1-D (5.3.2.2, 5.3.3.2): announced octets in, announced octets out, and the register of
// 64 stages between them in one number.
#![tactic(auto)]

ghost use Rattle.std.specs.Prelude.{◌≡◌, ℕ, ◌^◌, ◌≤◌, ◌<◌};
ghost use Rattle.octets.specs.Lists.{iterate};
ghost use Rattle.generator.specs.Generator.{shifted, next_vector, aes_vector};
ghost use Rattle.generator.specs.Held.{stages, Holds};

use octets::{number_of, octets_of};

// What k shifts feed, together: stage 14 is the lowest that is fed back, so up to 15 of them feed stages of the register as it stands.
fn fed(r: u64, k: usize) -> u64
    requires { (0 < k) × (k ≤ 15) }
    ensures { ((i : ℕ) → i < k → stages result i ≡ iterate shifted k (stages r) i) × (result < 2 ^ k) }
{
    let bits = (r >> (64 - k))
        ^ (r >> (62 - k))
        ^ (r >> (46 - k))
        ^ (r >> (38 - k))
        ^ (r >> (27 - k))
        ^ (r >> (15 - k));
    bits % (1 << k)
}

// k shifts at once.
fn shift(r: u64, k: usize) -> u64
    requires { (0 < k) × (k ≤ 15) }
    ensures { Holds result (iterate shifted k (stages r)) }
{
    (r << k) + fed(r, k)
}

// L(S), the next session's vector.
pub fn next_vector(vector: &[u8; 8]) -> [u8; 8]
    ensures { result ≡ next_vector vector.now }
{
    let mut register = number_of(vector);
    for _ in 0..4usize {
        register = shift(register, 15);
    }
    octets_of(shift(register, 4))
}

// The AES input vector: S, then L(S).
pub fn aes_vector(vector: &[u8; 8]) -> [u8; 16]
    ensures { result ≡ aes_vector vector.now }
{
    let mut out = [0u8; 16];
    out[..8].copy_from_slice(vector);
    out[8..].copy_from_slice(&next_vector(vector));
    out
}
