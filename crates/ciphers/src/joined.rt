// The keystream with DES by its joined tables: for whoever makes a whole session's, or a packet's. It is faster than by the plain engine and takes more stack.
ghost use Rattle.std.specs.Prelude.{◌≡◌, ◌+◌, ◌*◌, ◌^◌, ◌≤◌, ◌<◌, length};
ghost use Rattle.octets.specs.Bits.{octets_from};
ghost use Rattle.des.specs.Des.{des};
ghost use Rattle.sizes.specs.Ciphers.{block_bits};
ghost use Rattle.ciphers.specs.Keystream.{feedback, stream};

use crate::feedback::feed_back;
use crate::key::des_octets;
use crate::plain;
use joineddes::PreparedKey;
use sizes::cipher::{Des, KEY_ROOM, VECTOR_OCTETS};

// Kept: of one form with plain's. The tables are room on the stack that is cleared at the entry of the function that has it, and another cipher is to have neither:
// so it is a function of its own, and not inlined.
#[inline(never)]
fn des_stream(key: &[u8; KEY_ROOM], vector: &[u8; VECTOR_OCTETS], from: usize, out: &mut [u8])
    ensures { out.new ≡ octets_from (length out.old) (λ k. feedback (des key.now) (block_bits 2) vector.now (8 * from + k)) }
{
    feed_back(&PreparedKey::new(&des_octets(key)), vector, from, out);
}

// The bits of a session from octet `from` on. The key's own octets come first in `key`.
pub fn keystream(
    cipher: u8,
    key: [u8; KEY_ROOM],
    vector: [u8; VECTOR_OCTETS],
    from: usize,
    out: &mut [u8],
)
    requires { (1 ≤ cipher) × (cipher ≤ 3) × (8 * from < 2 ^ 64) }
    ensures { out.new ≡ octets_from (length out.old) (λ k. stream cipher key vector (8 * from + k)) }
{
    if cipher == Des::TYPE {
        des_stream(&key, &vector, from, out);
    } else {
        plain::keystream(cipher, key, vector, from, out);
    }
}
