// The known answers of the block ciphers, one block at a time.
ghost use Rattle.std.specs.Prelude.{◌<◌};

use crate::row::{has_octets, octets_of};

// The engines of DES.
// Kept: an enum that is matched, here and in messages, and no closure: a set of rows goes by an engine in three places, each with arguments of its own.
#[derive(Clone, Copy)]
pub enum DesEngine {
    Plain,
    Joined,
}

fn by_des(engine: DesEngine, key: &[u8; 8], block: &mut [u8; 8]) {
    match engine {
        DesEngine::Plain => des::PreparedKey::new(key).encipher(block),
        DesEngine::Joined => joineddes::PreparedKey::new(key).encipher(block),
    }
}

// Enciphers a block where it stands, by the cipher that has keys and blocks of these widths. Where there is none, the block stays.
pub fn encipher(engine: DesEngine, key: &[u8], block: &mut [u8]) {
    if key.len() == 32 {
        if let Ok(key) = key.try_into()
            && let Ok(block) = block.try_into()
        {
            aes::PreparedKey::new(key).encipher(block);
        }
    } else if let Ok(key) = key.try_into()
        && let Ok(block) = block.try_into()
    {
        by_des(engine, key, block);
    }
}

// A row has the key, the plain block and the enciphered block from field n on.
fn holds(engine: DesEngine, row: &[u8], n: usize, key: &mut [u8], block: &mut [u8]) -> bool
    requires { n < 16 }
{
    if !octets_of(row, n, key) || !octets_of(row, n + 1, block) {
        return false;
    }
    encipher(engine, key, block);
    has_octets(row, n + 2, block)
}

pub fn des_holds(engine: DesEngine, row: &[u8]) -> bool {
    holds(engine, row, 0, &mut [0; 8], &mut [0; 8])
}

// No engine of DES is run: the key's length is AES's.
pub fn aes_holds(row: &[u8]) -> bool {
    holds(DesEngine::Plain, row, 1, &mut [0; 32], &mut [0; 16])
}
