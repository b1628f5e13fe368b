// AES-256's forward cipher (FIPS 197).
#![tactic(auto)]

mod tables;

ghost use Rattle.std.specs.Prelude.{◌≡◌, ◌++◌, ◌+◌, ◌*◌, ◌<◌, ◌≤◌, length, get_or};
ghost use Rattle.aes.specs.Field.{sbox_of, xtime as xtimeOf};
ghost use Rattle.aes.specs.Cipher.{sub_bytes, shift_rows, mix_columns, add_round_key, rcon_of, rot_word, sub_word, temp as tempOf, next_word, key_expansion, aes};
ghost use Rattle.aes.specs.Prepared.{IsSbox, as_word, word_in, octet_of, octets_of, octets_in, mixed_alone, IsColumns, key_of, Prepared};

use std::array;

const SCHEDULE_WORDS: usize = 60;

// ---- octets and words

// {02} times b (4.2), with no branch.
fn xtime(b: u8) -> u8
    ensures { result ≡ xtimeOf b }
{
    (b << 1) ^ ((b >> 7) * 0x1b)
}

// What MixColumns makes of a column that is v, 0, 0, 0 (5.1.3).
fn mixed_alone(v: u8) -> u32
    ensures { result ≡ as_word (mixed_alone v) }
{
    let d = xtime(v);
    u32::from_le_bytes([d, v, v, v ^ d])
}

// Word i of octets. Of neighbours the compiler makes one load.
fn word_in(octets: &[u8], i: usize) -> u32
    requires { 4 * i + 4 ≤ length octets.now }
    ensures { result ≡ word_in octets.now i }
{
    let k = 4 * i;
    u32::from_le_bytes([octets[k], octets[k + 1], octets[k + 2], octets[k + 3]])
}

// Octet r of a word.
fn octet(w: u32, r: usize) -> u8
    requires { r < 4 }
    ensures { result ≡ octet_of w r }
{
    w.to_le_bytes()[r]
}

// ---- the S-box and the key schedule

// The S-box. A constant that is indexed is made anew at each read, so this is made once.
#[derive(Clone, Copy)]
struct Sbox {
    entries: [u8; 256],
    ghost is_sbox: { IsSbox entries },
}

impl Sbox {
    fn new() -> Sbox {
        Sbox {
            entries: tables::SBOX,
        }
    }

    // SubBytes and MixColumns of each octet alone, which a round's columns are sums of.
    fn columns(&self, columns: &mut [u32; 256])
        ensures { IsColumns columns.new }
    {
        for (x, v) in self.entries.iter().enumerate() {
            columns[x] = mixed_alone(*v);
        }
    }

    fn sub_byte(&self, x: u8) -> u8
        ensures { result ≡ sbox_of x }
    {
        self.entries[usize::from(x)]
    }

    fn sub_word(&self, t: u32) -> u32
        ensures { octets_of result ≡ sub_word (octets_of t) }
    {
        u32::from_le_bytes(t.to_le_bytes().map(|x| self.sub_byte(x)))
    }

    // What is added to word i - 8 to make word i, where t is word i - 1.
    fn temp(&self, t: u32, i: usize) -> u32
        requires past_the_key { (8 ≤ i) × (i < 60) }
        ensures { octets_of result ≡ tempOf (octets_of t) i }
    {
        if i % 8 == 0 {
            return self.sub_word(rot_word(t)) ^ u32::from(rcon(i / 8));
        }
        if i % 8 == 4 {
            return self.sub_word(t);
        }
        t
    }

    // Word i, made of the words before it.
    fn next_word(&self, w: &[u32; SCHEDULE_WORDS], i: usize) -> u32
        requires past_the_key { (8 ≤ i) × (i < 60) }
        ensures { octets_of result ≡ next_word (octets_in i w.now) i }
    {
        w[i - 8] ^ self.temp(w[i - 1], i)
    }

    // The key schedule of a key (5.2).
    fn key_expansion(&self, key: &[u8; 32], w: &mut [u32; SCHEDULE_WORDS])
        ensures { octets_in 60 w.new ≡ key_expansion key.now }
    {
        key_words(key, w);
        for i in 8..SCHEDULE_WORDS {
            w[i] = self.next_word(w, i);
        }
    }
}

// The first octet of round constant n, {02} to the n - 1, which none of these n has to reduce.
fn rcon(n: usize) -> u8
    requires { (0 < n) × (n < 8) }
    ensures { result ≡ rcon_of n }
{
    1 << (n - 1)
}

fn rot_word(t: u32) -> u32
    ensures { octets_of result ≡ rot_word (octets_of t) }
{
    t.rotate_left(24)
}

// A schedule's room with the words of the key, its first eight.
fn key_words(key: &[u8; 32], w: &mut [u32; SCHEDULE_WORDS])
    ensures { octets_in 8 w.new ≡ key.now }
{
    for i in 0..8 {
        w[i] = word_in(key, i);
    }
}

// ---- a state

// A block as the four words of a state.
fn state_of(block: &[u8; 16]) -> [u32; 4]
    ensures { octets_in 4 result ≡ block.now }
{
    array::from_fn(|q| word_in(block, q))
}

// A state as a block.
fn block_of(s: &[u32; 4]) -> [u8; 16]
    ensures { result ≡ octets_in 4 s.now }
{
    array::from_fn(|i| octet(s[i / 4], i % 4))
}

// Octet i after ShiftRows (5.1.2): it stood at place 5 i mod 16.
fn shifted(s: &[u32; 4], i: usize) -> u8
    requires { i < 16 }
    ensures { result ≡ get_or (shift_rows (octets_in 4 s.now)) i 0 }
{
    let k = 5 * i % 16;
    octet(s[k / 4], k % 4)
}

// ---- a prepared key

// All of a key that depends on no block, made once: its schedule, and the columns.
#[derive(Clone, Copy)]
pub struct PreparedKey {
    pub schedule: [u32; SCHEDULE_WORDS],
    pub columns: [u32; 256],
    ghost prepared: { Prepared (schedule ++ columns) },
}

impl PreparedKey {
    // Prepares a key. Not inlined, so that the S-box and what else it works on is off the stack again before a block is enciphered, and where a keystream takes
    // another cipher.
    #[inline(never)]
    pub fn new(key: &[u8; 32]) -> PreparedKey
        ensures { key_of result.schedule ≡ key.now }
    {
        let sbox = Sbox::new();
        let mut schedule = [0; SCHEDULE_WORDS];
        sbox.key_expansion(key, &mut schedule);
        // The columns are made where they stand: made beside the key and copied, they take more stack.
        let mut prepared = PreparedKey {
            schedule,
            columns: [0; 256],
        };
        sbox.columns(&mut prepared.columns);
        prepared
    }

    // The columns' entry for x.
    fn entry(&self, x: u8) -> u32
        ensures { result ≡ as_word (mixed_alone (sbox_of x)) }
    {
        self.columns[usize::from(x)]
    }

    // Octet i of the state after SubBytes and ShiftRows. The S-box's value stands in two rows of an entry.
    fn substituted(&self, s: &[u32; 4], i: usize) -> u8
        requires an_octet { i < 16 }
        ensures { result ≡ get_or (shift_rows (sub_bytes (octets_in 4 s.now))) i 0 }
    {
        octet(self.entry(shifted(s, i)), 1)
    }

    // Column q of the state after SubBytes, ShiftRows and MixColumns: the sum of its four octets' entries, each rotated to its row.
    fn mixed_column(&self, s: &[u32; 4], q: usize) -> u32
        requires a_column { q < 4 }
        ensures { result ≡ word_in (mix_columns (shift_rows (sub_bytes (octets_in 4 s.now)))) q }
    {
        let i = 4 * q;
        self.entry(shifted(s, i))
            ^ self.entry(shifted(s, i + 1)).rotate_left(8)
            ^ self.entry(shifted(s, i + 2)).rotate_left(16)
            ^ self.entry(shifted(s, i + 3)).rotate_left(24)
    }

    // Column q of the state after SubBytes and ShiftRows.
    fn shifted_column(&self, s: &[u32; 4], q: usize) -> u32
        requires a_column { q < 4 }
        ensures { result ≡ word_in (shift_rows (sub_bytes (octets_in 4 s.now))) q }
    {
        u32::from_le_bytes(array::from_fn(|r| self.substituted(s, 4 * q + r)))
    }

    // AddRoundKey (5.1.4).
    fn add_round_key(&self, s: &[u32; 4], n: usize) -> [u32; 4]
        requires a_round { n < 15 }
        ensures { octets_in 4 result ≡ add_round_key (octets_in 60 self.now.schedule) (octets_in 4 s.now) n }
    {
        array::from_fn(|q| s[q] ^ self.schedule[4 * n + q])
    }

    // A round before the last (5.1).
    fn round(&self, s: &[u32; 4], n: usize) -> [u32; 4]
        requires a_round { n < 15 }
        ensures { octets_in 4 result ≡ add_round_key (octets_in 60 self.now.schedule) (mix_columns (shift_rows (sub_bytes (octets_in 4 s.now)))) n }
    {
        self.add_round_key(&array::from_fn(|q| self.mixed_column(s, q)), n)
    }

    // The last round, which mixes no columns.
    fn last_round(&self, s: &[u32; 4]) -> [u32; 4]
        ensures { octets_in 4 result ≡ add_round_key (octets_in 60 self.now.schedule) (shift_rows (sub_bytes (octets_in 4 s.now))) 14 }
    {
        self.add_round_key(&array::from_fn(|q| self.shifted_column(s, q)), 14)
    }

    // Enciphers a block in place (5.1).
    pub fn encipher(&self, block: &mut [u8; 16])
        ensures { block.new ≡ aes (key_of self.now.schedule) block.old }
    {
        let mut s = self.add_round_key(&state_of(block), 0);
        for n in 1..14 {
            s = self.round(&s, n);
        }
        *block = block_of(&self.last_round(&s));
    }
}
