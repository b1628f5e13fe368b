// The cipher types with their sizes. Scramble is no block cipher, so it has no block bits.
//
// Kept: a type per cipher with its sizes as constants is a form that the build paper names (docs/DECISIONS.md), and `key_octets`, `block_bits` and
// `session_slots` take any number and answer 0 for one that is no cipher type, so there is no enum of the three.
ghost use Rattle.std.specs.Prelude.{◌≡◌};
ghost use Rattle.sizes.specs.Ciphers.{by_cipher, key_octets, block_bits, session_slots};

#[derive(Clone, Copy)]
pub struct Scramble;

impl Scramble {
    pub const TYPE: u8 = 1;

    pub const KEY_OCTETS: usize = 2;

    pub const SESSION_SLOTS: usize = 4;
}

#[derive(Clone, Copy)]
pub struct Des;

impl Des {
    pub const TYPE: u8 = 2;

    pub const KEY_OCTETS: usize = 8;

    pub const BLOCK_BITS: usize = 64;

    pub const SESSION_SLOTS: usize = 8;
}

#[derive(Clone, Copy)]
pub struct Aes;

impl Aes {
    pub const TYPE: u8 = 3;

    pub const KEY_OCTETS: usize = 32;

    pub const BLOCK_BITS: usize = 128;

    pub const SESSION_SLOTS: usize = 8;
}

// A session is one superframe, or two.
pub const SUPERFRAME_SLOTS: u8 = 4;

// The room for a key of any cipher.
pub const KEY_ROOM: usize = 32;

pub const VECTOR_OCTETS: usize = 8;

// What belongs to a cipher type, or 0 where there is no such cipher.
fn by_cipher(cipher: u8, scramble: usize, des: usize, aes: usize) -> usize
    ensures { result ≡ by_cipher cipher scramble des aes 0 }
{
    match cipher {
        Scramble::TYPE => scramble,
        Des::TYPE => des,
        Aes::TYPE => aes,
        _ => 0,
    }
}

// A cipher type's key length in octets.
pub fn key_octets(cipher: u8) -> usize
    ensures { result ≡ key_octets cipher }
{
    by_cipher(
        cipher,
        Scramble::KEY_OCTETS,
        Des::KEY_OCTETS,
        Aes::KEY_OCTETS,
    )
}

// A cipher type's block length in bits, or 0 where it is no block cipher: it holds the constants to the paper's numbers.
pub fn block_bits(cipher: u8) -> usize
    ensures { result ≡ block_bits cipher }
{
    by_cipher(cipher, 0, Des::BLOCK_BITS, Aes::BLOCK_BITS)
}

// How many slots a session of a cipher type has.
pub fn session_slots(cipher: u8) -> usize
    ensures { result ≡ session_slots cipher }
{
    by_cipher(
        cipher,
        Scramble::SESSION_SLOTS,
        Des::SESSION_SLOTS,
        Aes::SESSION_SLOTS,
    )
}
