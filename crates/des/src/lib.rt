// DES, FIPS 46-3, forward. Here is the plain engine, on unpacked bits: an octet for each bit, the leftmost first. The second one, on numbers, is `joineddes`.
#![tactic(auto)]

mod looks;
pub mod tables;

ghost use Rattle.std.specs.Prelude.{◌≡◌, ◌++◌, ℕ, suc, ◌+◌, ◌-◌, ◌*◌, ◌/◌, ◌%◌, ◌^◌, ◌<◌, ◌≤◌, length, get_or, take, drop};
ghost use Rattle.octets.specs.Bits.{bit, octet, octets_from, Bits};
ghost use Rattle.octets.specs.Lists.{tab};
ghost use Rattle.des.specs.Tables.{ip, ip⁻¹, pc_1, table_s};
ghost use Rattle.des.specs.Des.{permuted, xor_bits, box_input, box_place, substituted, cipher_f, rounds, halved, preoutput, des};
ghost use Rattle.des.specs.Prepared.{cipher_tables, shifts_to, shift_sums, key_of, keys_of, Prepared};

use std::mem::swap;
use tables::{E, IP, IP_INVERSE, LEFT_SHIFTS, P, PC1, PC2, S};

// Where the parts of a prepared key stand: the tables of a block, of which permuted choice 2 comes last, its places of C and then of D; the key; C and D, each
// twice over; and the shifts so far, for each round.
// Kept: one array with these places, since the definitions `Prepared` and `key_of` speak of one list.
const AT_IP: usize = 0;

const AT_E: usize = AT_IP + 64;

const AT_P: usize = AT_E + 48;

const AT_S: usize = AT_P + 32;

const AT_IP_INVERSE: usize = AT_S + 512;

const AT_C_PLACES: usize = AT_IP_INVERSE + 64;

const AT_D_PLACES: usize = AT_C_PLACES + 24;

const AT_KEY: usize = AT_D_PLACES + 24;

const AT_C: usize = AT_KEY + 8;

const AT_D: usize = AT_C + 2 * HALF;

const AT_SHIFTS: usize = AT_D + 2 * HALF;

pub const END: usize = AT_SHIFTS + 16;

// The bits of C, and of D.
pub const HALF: usize = 28;

// The bits at the places that a table has.
pub fn permute(bits: &[u8], table: &[u8], out: &mut [u8])
    requires out_len { length out.old ≡ length table.now }
    requires by_index { (i : ℕ) → i < length table.now → (1 ≤ get_or table.now i 0) × (get_or table.now i 0 ≤ length bits.now) }
    ensures { out.new ≡ permuted table.now bits.now }
{
    for (i, place) in table.iter().enumerate() {
        out[i] = bits[usize::from(*place) - 1];
    }
}

// Adds bits to bits, modulo 2.
// Kept: octets' `turn_octets` has this loop, and promises of octets and their bits what this promises of an octet to a bit: one for both is no plainer.
fn add(bits: &mut [u8], more: &[u8])
    requires { (length bits.old ≡ length more.now) × Bits (λ k. get_or bits.old k 0) × Bits (λ k. get_or more.now k 0) }
    ensures { bits.new ≡ xor_bits bits.old more.now }
{
    for (i, bit) in bits.iter_mut().enumerate() {
        *bit ^= more[i];
    }
}

// The bits of the first eight octets.
fn unpack(octets: &[u8]) -> [u8; 64]
    requires { 8 ≤ length octets.now }
    ensures { result ≡ tab (bit octets.now) 64 }
{
    let mut bits = [0u8; 64];
    for (i, bit) in bits.iter_mut().enumerate() {
        *bit = (octets[i / 8] >> (7 - i % 8)) % 2;
    }
    bits
}

// Octet i of 64 bits.
fn octet_of(bits: &[u8; 64], i: usize) -> u8
    requires { Bits (λ k. get_or bits.now k 0) × (i < 8) }
    ensures { result ≡ octet (λ k. get_or bits.now (8 * i + k) 0) }
{
    let o = 8 * i;
    let high = 8 * bits[o] + 4 * bits[o + 1] + 2 * bits[o + 2] + bits[o + 3];
    let low = 8 * bits[o + 4] + 4 * bits[o + 5] + 2 * bits[o + 6] + bits[o + 7];
    16 * high + low
}

// The eight octets of 64 bits.
fn pack(bits: &[u8; 64], block: &mut [u8; 8])
    requires { Bits (λ k. get_or bits.now k 0) }
    ensures { block.new ≡ octets_from 8 (λ k. get_or bits.now k 0) }
{
    for (i, octet) in block.iter_mut().enumerate() {
        *octet = octet_of(bits, i);
    }
}

// The place in a box of six bits: the first and the last are the row, the four between the column.
// Kept: tried, the six read out of the list in here; they then come in another order, and the bar of speed is missed by 2 in 100 more of a block's time.
fn place_in_box(a: u8, b: u8, c: u8, d: u8, e: u8, f: u8) -> u8
    requires { (a < 2) × (b < 2) × (c < 2) × (d < 2) × (e < 2) × (f < 2) }
    ensures { (result ≡ 16 * (2 * a + f) + (8 * b + 4 * c + 2 * d + e)) × (result < 64) }
{
    16 * (2 * a + f) + (8 * b + 4 * c + 2 * d + e)
}

// Where box i looks.
fn box_place(bits: &[u8; 48], i: usize) -> usize
    requires { Bits (λ k. get_or bits.now k 0) × (i < 8) }
    ensures { (result ≡ box_place bits.now i) × (result < 512) }
{
    let o = 6 * i;
    let place = place_in_box(
        bits[o],
        bits[o + 1],
        bits[o + 2],
        bits[o + 3],
        bits[o + 4],
        bits[o + 5],
    );
    64 * i + usize::from(place)
}

// What the boxes select by 48 bits.
fn substitute(boxes: &[u8], bits: &[u8; 48]) -> [u8; 32]
    requires { (boxes.now ≡ table_s) × Bits (λ k. get_or bits.now k 0) }
    ensures { result ≡ substituted bits.now }
{
    let mut out = [0u8; 32];
    for i in 0..8 {
        let at = box_place(bits, i);
        let v = boxes[at];
        let o = 4 * i;
        out[o] = v / 8 % 2;
        out[o + 1] = v / 4 % 2;
        out[o + 2] = v / 2 % 2;
        out[o + 3] = v % 2;
    }
    out
}

// The 32 bits from a place on.
fn half(bits: &[u8; 64], from: usize) -> [u8; 32]
    requires { from + 32 ≤ 64 }
    ensures { result ≡ take 32 (drop from bits.now) }
{
    let mut out = [0u8; 32];
    out.copy_from_slice(&bits[from..from + 32]);
    out
}

// Two halves, one after the other.
fn join(first: &[u8], second: &[u8], out: &mut [u8])
    requires { length out.old ≡ length first.now + length second.now }
    ensures { out.new ≡ first.now ++ second.now }
{
    let n = first.len();
    out[..n].copy_from_slice(first);
    out[n..].copy_from_slice(second);
}

// ---- the key schedule

// C and D before the first shift. Kept: a key of more than eight octets may be given (`first_state` of docs/STATEMENTS.md), so no array of eight is asked for.
pub fn first_state(key: &[u8]) -> [u8; 56]
    requires { 8 ≤ length key.now }
    ensures { result ≡ permuted pc_1 (tab (bit key.now) 64) }
{
    let mut cd = [0u8; 56];
    permute(&unpack(key), &PC1, &mut cd);
    cd
}

// The sums of the shifts, up to each round.
fn sum_shifts(sums: &mut [u8])
    requires { length sums.old ≡ 16 }
    ensures { sums.new ≡ shift_sums }
{
    let mut sum = 0;
    for (round, shift) in LEFT_SHIFTS.iter().enumerate() {
        sum += *shift;
        sums[round] = sum;
    }
}

// C, or D, twice over.
pub fn twice(half: &[u8], out: &mut [u8])
    requires { length out.old ≡ length half.now + length half.now }
    ensures { out.new ≡ half.now ++ half.now }
{
    join(half, half, out);
}

// The tables of a block, one after the other. They are made once for a key: a constant is made anew wherever it is read.
fn put_tables(all: &mut [u8])
    requires { length all.old ≡ 768 }
    ensures { all.new ≡ cipher_tables }
{
    all[AT_IP..AT_E].copy_from_slice(&IP);
    all[AT_E..AT_P].copy_from_slice(&E);
    all[AT_P..AT_S].copy_from_slice(&P);
    all[AT_S..AT_IP_INVERSE].copy_from_slice(&S);
    all[AT_IP_INVERSE..AT_C_PLACES].copy_from_slice(&IP_INVERSE);
    all[AT_C_PLACES..AT_KEY].copy_from_slice(&PC2);
}

// ---- a prepared key

// A key for the blocks that come: the tables, the key, and what the keys of the rounds are read from. Those are worked out each just before its round, so that
// sixteen of them never stand on the stack.
#[derive(Clone, Copy)]
pub struct PreparedKey {
    pub octets: [u8; END],
    ghost prepared: { Prepared octets },
}

impl PreparedKey {
    // Prepares a key. Not inlined: then what it works on is off the stack again before a block is enciphered, and the key stands there once.
    #[inline(never)]
    pub fn new(key: &[u8; 8]) -> PreparedKey
        ensures { key_of result.octets ≡ key.now }
    {
        let mut prepared = PreparedKey { octets: [0; END] };
        put_tables(&mut prepared.octets[AT_IP..AT_KEY]);
        prepared.octets[AT_KEY..AT_C].copy_from_slice(key);
        let cd = first_state(key);
        twice(&cd[0..HALF], &mut prepared.octets[AT_C..AT_D]);
        twice(&cd[HALF..56], &mut prepared.octets[AT_D..AT_SHIFTS]);
        sum_shifts(&mut prepared.octets[AT_SHIFTS..END]);
        prepared
    }

    // Enciphers a block in place.
    pub fn encipher(&self, block: &mut [u8; 8])
        ensures { block.new ≡ des (key_of self.now.octets) block.old }
    {
        let mut bits = [0u8; 64];
        self.initial(block, &mut bits);
        self.first_rounds(&mut bits, 16);
        self.last(&bits, block);
    }

    // The initial permutation of a block, into lent bits: an array given back takes more stack.
    fn initial(&self, block: &[u8; 8], first: &mut [u8; 64])
        ensures { first.new ≡ permuted ip (tab (bit block.now) 64) }
    {
        permute(&unpack(block), &self.octets[AT_IP..AT_E], first);
    }

    // The first rounds, as many as asked, and the halves in the other order.
    fn first_rounds(&self, bits: &mut [u8; 64], count: usize)
        requires { Bits (λ k. get_or bits.old k 0) × (count ≤ 16) }
        ensures { bits.new ≡ preoutput (rounds (keys_of self.now.octets) (halved bits.old) count) }
    {
        let mut left = half(bits, 0);
        let mut right = half(bits, 32);
        for n in 0..count {
            let f = self.cipher_function(&right, n);
            add(&mut left, &f);
            swap(&mut left, &mut right);
        }
        join(&right, &left, bits);
    }

    // The block of the preoutput: the inverse of the initial permutation, packed.
    fn last(&self, preoutput: &[u8; 64], block: &mut [u8; 8])
        requires { Bits (λ k. get_or preoutput.now k 0) }
        ensures { block.new ≡ octets_from 8 (λ k. get_or (permuted ip⁻¹ preoutput.now) k 0) }
    {
        let mut bits = [0u8; 64];
        permute(
            preoutput,
            &self.octets[AT_IP_INVERSE..AT_C_PLACES],
            &mut bits,
        );
        pack(&bits, block);
    }

    // f(R, K) of round n, counted from 0.
    fn cipher_function(&self, right: &[u8; 32], n: usize) -> [u8; 32]
        requires { Bits (λ k. get_or right.now k 0) × (n < 16) }
        ensures { result ≡ cipher_f right.now (keys_of self.now.octets n) }
    {
        let input = self.box_input(right, n);
        let selected = substitute(&self.octets[AT_S..AT_IP_INVERSE], &input);
        let mut out = [0u8; 32];
        permute(&selected, &self.octets[AT_P..AT_S], &mut out);
        out
    }

    // What the boxes are given in round n, counted from 0: E(R) + K.
    fn box_input(&self, right: &[u8; 32], n: usize) -> [u8; 48]
        requires { Bits (λ k. get_or right.now k 0) × (n < 16) }
        ensures { result ≡ box_input right.now (keys_of self.now.octets n) }
    {
        let mut input = [0u8; 48];
        permute(right, &self.octets[AT_E..AT_P], &mut input);
        let key = self.round_key(n);
        add(&mut input, &key);
        input
    }

    // Where C begins as round n, counted from 0, has it: it stands twice over, so shifted left by s places, around, it is the 28 bits from place s on.
    fn c_in_round(&self, n: usize) -> usize
        requires { n < 16 }
        ensures { (result ≡ 776 + shifts_to (suc n)) × (result ≤ 804) }
    {
        AT_C + usize::from(self.octets[AT_SHIFTS + n])
    }

    // The key of round n, counted from 0. Permuted choice 2 counts D's places on from C's 28; here D stands behind C's second time, so 28 further on.
    fn round_key(&self, n: usize) -> [u8; 48]
        requires { n < 16 }
        ensures { result ≡ keys_of self.now.octets n }
    {
        let c = self.c_in_round(n);
        let d = c + HALF;
        let mut key = [0u8; 48];
        permute(
            &self.octets[c..END],
            &self.octets[AT_C_PLACES..AT_D_PLACES],
            &mut key[0..24],
        );
        permute(
            &self.octets[d..END],
            &self.octets[AT_D_PLACES..AT_KEY],
            &mut key[24..48],
        );
        key
    }
}
