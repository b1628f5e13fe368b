// The scramble sequence (NXDN TS 1-D, 5.3.1), written eight bits at a time.
//
// The fifteen bits from a place on are held as one number, the first on top, so that the next octet of the sequence is its top eight.
#![tactic(auto)]

ghost use Rattle.std.specs.Prelude.{◌≡◌, ◌+◌, ◌*◌, ◌^◌, ◌≤◌, ◌<◌, length};
ghost use Rattle.octets.specs.Lists.{iterate};
ghost use Rattle.octets.specs.Bits.{octets_from};
ghost use Rattle.scramble.specs.Sequence.{key_number, P};
ghost use Rattle.scramble.specs.Held.{held, moved};

// Kept: a key is a slice of any length of at least 2, here and in each function below, since `write` asks no more of its callers.
//
// The key's fifteen bits as a number.
fn key_number(key: &[u8]) -> usize
    requires { 2 ≤ length key.now }
    ensures { result ≡ key_number key.now }
{
    usize::from(u16::from_be_bytes([key[0], key[1]])) % 32768
}

// The bits from place 0 on: the key's own, the lowest first.
fn first(key: &[u8]) -> usize
    requires { 2 ≤ length key.now }
    ensures { result ≡ held key.now 0 }
{
    let mut rest = key_number(key);
    let mut bits = 0;
    for _ in 0..15usize {
        bits = 2 * bits + rest % 2;
        rest /= 2;
    }
    bits
}

// The bits k places later: bit n + 15 is the exclusive or of bits n + 1 and n.
fn later(bits: usize, k: usize) -> usize
    requires { (bits < 2 ^ 15) × (k ≤ 14) }
    ensures { result ≡ iterate moved k bits }
{
    let fed = (bits ^ (bits << 1)) % 32768;
    (bits << k) % 32768 + (fed >> (15 - k))
}

// The bits n octets later.
fn octets_later(bits: usize, n: usize) -> usize
    requires { bits < 2 ^ 15 }
    ensures { result ≡ iterate moved (8 * n) bits }
{
    let mut moved = bits;
    for _ in 0..n {
        moved = later(moved, 8);
    }
    moved
}

// The bits from a place on. The sequence comes again after 32,767 places, so that no place is far.
fn bits_at(key: &[u8], place: usize) -> usize
    requires { 2 ≤ length key.now }
    ensures { result ≡ held key.now place }
{
    let near = place % 32767;
    later(octets_later(first(key), near / 8), near % 8)
}

// The sequence from place `from` on.
pub fn write(key: &[u8], from: usize, out: &mut [u8])
    requires { 2 ≤ length key.now }
    ensures { out.new ≡ octets_from (length out.old) (λ k. P key.now (from + k)) }
{
    let mut bits = bits_at(key, from);
    for octet in out.iter_mut() {
        *octet = (bits >> 7) as u8;
        bits = later(bits, 8);
    }
}
