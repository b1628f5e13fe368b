// Octets and their bits, and a part of a lent buffer turned over by a stream of bits.
#![tactic(auto)]

ghost use Rattle.std.specs.Prelude.{◌≡◌, ℕ, ◌+◌, ◌-◌, ◌*◌, ◌/◌, ◌%◌, ◌^◌, ◌≤◌, ◌<◌, length};
ghost use Rattle.octets.specs.Lists.{all_zero};
ghost use Rattle.octets.specs.Bits.{bit, octets_from};
ghost use Rattle.octets.specs.Turn.{turned};

// Whether every octet is zero. All are looked at, so the compiler takes many at a time.
pub fn all_zero(xs: &[u8]) -> bool
    ensures { result ≡ all_zero xs.now }
{
    xs.iter().fold(0, |bits, x| bits | x) == 0
}

// The number of eight octets, the first of them the most significant.
pub fn number_of(octets: &[u8; 8]) -> u64
    ensures { (k : ℕ) → k < 64 → result / 2 ^ (63 - k) % 2 ≡ bit octets.now k }
{
    u64::from_be_bytes(*octets)
}

// The eight octets of a number.
pub fn octets_of(number: u64) -> [u8; 8]
    ensures { result ≡ octets_from 8 (λ k. number / 2 ^ (63 - k) % 2) }
{
    number.to_be_bytes()
}

// The first n bits of a number, the others zero.
fn top(x: u64, n: usize) -> u64
    requires { (0 < n) × (n ≤ 64) }
    ensures { result ≡ x / 2 ^ (64 - n) * 2 ^ (64 - n) }
{
    let low = 64 - n;
    (x >> low) << low
}

// The bits of a stream from bit s of octet `first` on, in the top of a number: 57 of them, or as many as there are.
fn bits_from(stream: &[u8], first: usize, s: usize) -> u64
    requires { (first < length stream.now) × (s < 8) }
    ensures { (k : ℕ) → k < 57 → 8 * first + s + k < 8 * length stream.now → result / 2 ^ (63 - k) % 2 ≡ bit stream.now (8 * first + s + k) }
{
    let mut octets = [0u8; 8];
    // A shorter stream is read as if zeros followed.
    if stream.len() < 8 {
        octets[..stream.len()].copy_from_slice(stream);
        return number_of(&octets) << (8 * first + s);
    }
    // Near the stream's end its last eight octets are read.
    let start = first.min(stream.len() - 8);
    octets.copy_from_slice(&stream[start..start + 8]);
    number_of(&octets) << (8 * (first - start) + s)
}

// Turns over every bit of a part by those of as many octets.
fn turn_octets(part: &mut [u8], key: &[u8])
    requires { length key.now ≡ length part.old }
    ensures { part.new ≡ turned (8 * length part.old) (bit key.now) part.old }
{
    for (i, octet) in part.iter_mut().enumerate() {
        *octet ^= key[i];
    }
}

// Turns over the first `width` bits of a part, seven octets at a time: eight octets of the stream have their bits, at whichever bit they begin.
fn turn_bits(part: &mut [u8], width: usize, stream: &[u8], from: usize)
    requires { from + width ≤ 8 * length stream.now }
    ensures { part.new ≡ turned width (λ n. bit stream.now (from + n)) part.old }
{
    let first = from / 8;
    let n = part.len().min(width.div_ceil(8));
    for at in (0..n).step_by(7) {
        let octets = (n - at).min(7);
        let bits = (width - 8 * at).min(56);
        let key = octets_of(top(bits_from(stream, first + at, from % 8), bits));
        turn_octets(&mut part[at..at + octets], &key[..octets]);
    }
}

// Turns over the first `width` bits of a part by those of a stream from bit `from` on, which reaches that far.
pub fn turn(part: &mut [u8], width: usize, stream: &[u8], from: usize)
    requires { from + width ≤ 8 * length stream.now }
    ensures { part.new ≡ turned width (λ n. bit stream.now (from + n)) part.old }
{
    // Every bit of the part, by whole octets of the stream.
    if from % 8 == 0 && part.len() <= width / 8 {
        let first = from / 8;
        turn_octets(part, &stream[first..first + part.len()]);
        return;
    }
    // A word at half rate: one number has its bits, and the compiler knows how many octets they turn.
    if part.len() == 7 && 0 < width && width <= 56 {
        let key = octets_of(top(bits_from(stream, from / 8, from % 8), width));
        turn_octets(part, &key[..7]);
        return;
    }
    turn_bits(part, width, stream, from);
}
