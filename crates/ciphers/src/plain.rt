// The keystream with DES by its plain engine: the bits of a session from any octet on, into lent octets. For the audio task, a slot at a time: it takes less stack
// than with the joined tables.
ghost use Rattle.std.specs.Prelude.{◌≡◌, ◌+◌, ◌*◌, ◌^◌, ◌≤◌, ◌<◌, length};
ghost use Rattle.octets.specs.Bits.{octets_from};
ghost use Rattle.des.specs.Des.{des};
ghost use Rattle.aes.specs.Cipher.{aes};
ghost use Rattle.generator.specs.Generator.{aes_vector};
ghost use Rattle.sizes.specs.Ciphers.{block_bits};
ghost use Rattle.ciphers.specs.Keystream.{feedback, stream};

use crate::feedback::feed_back;
use crate::key::des_octets;
use sizes::cipher::{Des, KEY_ROOM, Scramble, VECTOR_OCTETS};

fn des_stream(key: &[u8; KEY_ROOM], vector: &[u8; VECTOR_OCTETS], from: usize, out: &mut [u8])
    ensures { out.new ≡ octets_from (length out.old) (λ k. feedback (des key.now) (block_bits 2) vector.now (8 * from + k)) }
{
    let prepared = des::PreparedKey::new(&des_octets(key));
    feed_back(&prepared, vector, from, out);
}

fn aes_stream(key: &[u8; KEY_ROOM], vector: &[u8; VECTOR_OCTETS], from: usize, out: &mut [u8])
    ensures { out.new ≡ octets_from (length out.old) (λ k. feedback (aes key.now) (block_bits 3) (aes_vector vector.now) (8 * from + k)) }
{
    let prepared = aes::PreparedKey::new(key);
    feed_back(&prepared, &generator::aes_vector(vector), from, out);
}

// The bits of a session from octet `from` on. The key's own octets come first in `key`.
pub fn keystream(
    cipher: u8,
    key: [u8; KEY_ROOM],
    vector: [u8; VECTOR_OCTETS],
    from: usize,
    out: &mut [u8],
)
    requires { (1 ≤ cipher) × (cipher ≤ 3) × (8 * from < 2 ^ 64) }
    ensures { out.new ≡ octets_from (length out.old) (λ k. stream cipher key vector (8 * from + k)) }
{
    match cipher {
        Scramble::TYPE => scramble::write(&key, 8 * from, out),
        Des::TYPE => des_stream(&key, &vector, from, out),
        _ => aes_stream(&key, &vector, from, out),
    }
}
