// Output feedback over lent octets (001, 5.3.2.1 and 5.3.3.1), for any block cipher.
ghost use Rattle.std.specs.Prelude.{◌≡◌, List, ℕ, ◌+◌, ◌*◌, ◌⊎◌, ◌≤◌, refl, length, take, drop};
ghost use Rattle.std.proofs.Common.{inl, inr};
ghost use Rattle.octets.specs.Lists.{iterate};
ghost use Rattle.octets.specs.Bits.{Octets, octets_from};
ghost use Rattle.des.specs.Des.{des};
ghost use Rattle.des.specs.Prepared.{key_of as des_key_of};
ghost use Rattle.joineddes.specs.Joined.{first_halves, carried_on, halves_in, keys_in, Scheduled};
ghost use Rattle.aes.specs.Cipher.{aes};
ghost use Rattle.aes.specs.Prepared.{key_of as aes_key_of};
ghost use Rattle.ciphers.specs.Keystream.{feedback};

use joineddes::Carried;
use octets::octets_of;
use sizes::cipher::{Aes, Des};

// A block of DES, and of AES, in octets.
const DES_OCTETS: usize = Des::BLOCK_BITS / 8;

const AES_OCTETS: usize = Aes::BLOCK_BITS / 8;

// What enciphers blocks of N octets under a prepared key. From a block to the next one is carried what the engine works on, which need not be the block's octets.
pub trait Engine<const N: usize> {
    type Carried: Copy;

    // it enciphers a block as the function does
    ghost Enciphers: { Self → (List ℕ → List ℕ) → Type 0 };

    // what is carried stands for the block that comes n encipherments after a vector
    ghost StandsFor: { Self → List ℕ → ℕ → Self.Carried → Type 0 };

    // What is carried for the vector itself.
    fn first(&self, vector: &[u8; N]) -> Self::Carried
        ensures { StandsFor self.now vector.now 0 result };

    fn carry_on(&self, carried: Self::Carried) -> Self::Carried
        ensures { (vector : List ℕ) (n : ℕ) → StandsFor self.now vector n carried → StandsFor self.now vector (n + 1) result };

    fn block(&self, carried: Self::Carried) -> [u8; N]
        ensures { (cipher : List ℕ → List ℕ) (vector : List ℕ) (n : ℕ) → Enciphers self.now cipher → StandsFor self.now vector n carried → result ≡ iterate cipher n vector };

    // Blocks are of 64 bits or of 128.
    ghost wide: { (N ≡ 8) ⊎ (N ≡ 16) };
}

// Kept: this impl and AES's differ in a type and a size, and one for both would be no plainer: it wants a second trait, of `encipher`, with an impl for each of them.
impl Engine<DES_OCTETS> for des::PreparedKey {
    type Carried = [u8; DES_OCTETS];

    ghost Enciphers = { λ prepared cipher. cipher ≡ des (des_key_of prepared.octets) };

    ghost StandsFor = { λ prepared vector n block. block ≡ iterate (des (des_key_of prepared.octets)) n vector };

    ghost wide = { inl refl };

    fn first(&self, vector: &[u8; DES_OCTETS]) -> [u8; DES_OCTETS] {
        *vector
    }

    fn carry_on(&self, mut block: [u8; DES_OCTETS]) -> [u8; DES_OCTETS] {
        self.encipher(&mut block);
        block
    }

    fn block(&self, block: [u8; DES_OCTETS]) -> [u8; DES_OCTETS] {
        block
    }
}

impl Engine<AES_OCTETS> for aes::PreparedKey {
    type Carried = [u8; AES_OCTETS];

    ghost Enciphers = { λ prepared cipher. cipher ≡ aes (aes_key_of prepared.schedule) };

    ghost StandsFor = { λ prepared vector n block. block ≡ iterate (aes (aes_key_of prepared.schedule)) n vector };

    ghost wide = { inr refl };

    fn first(&self, vector: &[u8; AES_OCTETS]) -> [u8; AES_OCTETS] {
        *vector
    }

    fn carry_on(&self, mut block: [u8; AES_OCTETS]) -> [u8; AES_OCTETS] {
        self.encipher(&mut block);
        block
    }

    fn block(&self, block: [u8; AES_OCTETS]) -> [u8; AES_OCTETS] {
        block
    }
}

// The halves of a block are carried, and a block is made of them only for output.
impl Engine<DES_OCTETS> for joineddes::PreparedKey {
    type Carried = Carried;

    ghost Enciphers = { λ prepared cipher. (key : List ℕ) × Scheduled key prepared.keys × (cipher ≡ des key) };

    ghost StandsFor = { λ prepared vector n halves. (length vector ≡ 8) × Octets vector × (halves_in halves ≡ iterate (carried_on (keys_in prepared.keys)) n (first_halves vector)) };

    ghost wide = { inl refl };

    fn first(&self, vector: &[u8; DES_OCTETS]) -> Carried {
        Carried::of(vector)
    }

    fn carry_on(&self, halves: Carried) -> Carried {
        self.carry_on(halves)
    }

    fn block(&self, halves: Carried) -> [u8; DES_OCTETS] {
        octets_of(halves.block())
    }
}

// What is carried n blocks on.
fn skip<const N: usize, E: Engine<N>>(engine: &E, first: E::Carried, n: usize) -> E::Carried
    ensures { (vector : List ℕ) → E.StandsFor engine.now vector 0 first → E.StandsFor engine.now vector n result }
{
    let mut carried = first;
    for _ in 0..n {
        carried = engine.carry_on(carried);
    }
    carried
}

// The octets of a block from a place on, as many as are asked for. Where that is all of them, their number is known here and no call copies them.
fn copy_octets<const N: usize>(block: &[u8; N], at: usize, out: &mut [u8])
    requires { at + length out.old ≤ N }
    ensures { out.new ≡ take (length out.old) (drop at block.now) }
{
    let block = &block[..];
    if out.len() == N {
        out.copy_from_slice(block);
    } else {
        out.copy_from_slice(&block[at..at + out.len()]);
    }
}

// The octets from octet `from` of a session on. The vector's first encipherment is not used.
pub fn feed_back<const N: usize, E: Engine<N>>(
    engine: &E,
    vector: &[u8; N],
    from: usize,
    out: &mut [u8],
)
    ensures { (cipher : List ℕ → List ℕ) → E.Enciphers engine.now cipher → out.new ≡ octets_from (length out.old) (λ k. feedback cipher (8 * N) vector.now (8 * from + k)) }
{
    let mut carried = skip(engine, engine.first(vector), from / N + 1);
    let mut at = from % N;
    let mut i = 0;
    // Kept: the new form is no plainer. After `chunks_mut` a proof knows the octets' number alone, and `(0..at + out.len()).step_by(N)` gives no part but where its
    // block begins, from which both ends would be worked out.
    while i < out.len() {
        carried = engine.carry_on(carried);
        let n = (N - at).min(out.len() - i);
        copy_octets(&engine.block(carried), at, &mut out[i..i + n]);
        at = 0;
        i += n;
    }
}
