// The known answers of output feedback as FIPS 81 and SP 800-38A have it: unlike in NXDN TS 1-D, the vector's first encipherment is used.
ghost use Rattle.std.specs.Prelude.{◌<◌, ◌≤◌, length};

use crate::blocks::{DesEngine, encipher};
use crate::row::{field, has_octets, octets_of};
use check::same;
use octets::turn;

// Turns a text over by the encipherments of a block, one after the other.
fn feed_back(engine: DesEngine, key: &[u8], block: &mut [u8], text: &mut [u8])
    requires { (0 < length block.old) × (length block.old ≤ 16) }
{
    for part in text.chunks_mut(block.len()) {
        encipher(engine, key, block);
        turn(part, 8 * part.len(), block, 0);
    }
}

fn row_holds(
    engine: DesEngine,
    row: &[u8],
    key: &mut [u8],
    vector: &mut [u8],
    text: &mut [u8],
) -> bool
    requires { (0 < length vector.old) × (length vector.old ≤ 16) }
{
    if !octets_of(row, 2, key) || !octets_of(row, 3, vector) || !octets_of(row, 4, text) {
        return false;
    }
    feed_back(engine, key, vector, text);
    has_octets(row, 5, text)
}

// A row has the cipher, its source, the key, the vector, the plain octets and the enciphered octets.
pub fn holds(engine: DesEngine, row: &[u8]) -> bool {
    if same(field(row, 0), b"DES") {
        return row_holds(engine, row, &mut [0u8; 8], &mut [0u8; 8], &mut [0u8; 24]);
    }
    if same(field(row, 0), b"AES") {
        return row_holds(engine, row, &mut [0u8; 32], &mut [0u8; 16], &mut [0u8; 64]);
    }
    false
}
