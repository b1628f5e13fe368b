// Which keys a cipher allows.
ghost use Rattle.std.specs.Prelude.{◌≡◌, ◌≤◌, length, take};
ghost use Rattle.ciphers.specs.Keys.{odd_octet, scramble_key, des_key, key_allowed, key_right};

use octets::all_zero;
use sizes::cipher::{Aes, Des, KEY_ROOM, Scramble, key_octets};

// Whether an odd number of an octet's bits are 1. Each half is folded onto the other, and the last bit is the sum of all.
fn odd_octet(x: u8) -> bool
    ensures { result ≡ odd_octet x }
{
    let fours = x ^ (x >> 4);
    let twos = fours ^ (fours >> 2);
    let ones = twos ^ (twos >> 1);
    ones % 2 == 1
}

// 15 bits, high octet first, not all zero.
fn scramble_key(key: &[u8]) -> bool
    requires { 2 ≤ length key.now }
    ensures { result ≡ scramble_key key.now }
{
    let number = u16::from_be_bytes([key[0], key[1]]);
    number > 0 && number < 0x8000
}

// Odd parity in every octet. All are looked at, so the compiler takes many at a time.
fn des_key(key: &[u8]) -> bool
    requires { 8 ≤ length key.now }
    ensures { result ≡ des_key key.now }
{
    key[..Des::KEY_OCTETS]
        .iter()
        .fold(true, |odd, &octet| odd & odd_octet(octet))
}

// A key of DES, whose octets come first.
pub fn des_octets(key: &[u8; KEY_ROOM]) -> [u8; Des::KEY_OCTETS]
    ensures { result ≡ take 8 key.now }
{
    let mut octets = [0; Des::KEY_OCTETS];
    octets.copy_from_slice(&key[..Des::KEY_OCTETS]);
    octets
}

// Whether a key is allowed; its octets come first.
pub fn key_allowed(cipher: u8, key: &[u8]) -> bool
    requires { 32 ≤ length key.now }
    ensures { result ≡ key_allowed cipher key.now }
{
    match cipher {
        Scramble::TYPE => scramble_key(key),
        Des::TYPE => des_key(key),
        Aes::TYPE => true,
        _ => false,
    }
}

// Whether the key is allowed, and zero past its length.
pub fn key_right(cipher: u8, key: [u8; KEY_ROOM]) -> bool
    ensures { result ≡ key_right cipher key }
{
    key_allowed(cipher, &key) && all_zero(&key[key_octets(cipher)..])
}
