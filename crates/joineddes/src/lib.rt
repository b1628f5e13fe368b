// DES by joined tables, on numbers of 32 bits: the second engine. It is for whoever makes much keystream: faster than the plain one, with more stack.
#![tactic(auto)]

mod tables;

ghost use Rattle.std.specs.Prelude.{◌≡◌, true, List, ℕ, suc, ◌+◌, ◌-◌, ◌*◌, ◌/◌, ◌%◌, ◌^◌, ◌<◌, ◌≤◌, length, get_or};
ghost use Rattle.octets.specs.Bits.{bit, Bits};
ghost use Rattle.octets.specs.Lists.{tab};
ghost use Rattle.des.specs.Tables.{ip, ip⁻¹, pc_2};
ghost use Rattle.des.specs.Des.{permuted, rotated, round_key};
ghost use Rattle.des.specs.Prepared.{shifts_to, twice_over};
ghost use Rattle.joineddes.specs.Joined.{bits_in, joined_tables, joined_f, entry_place, first_halves, carried_on, block_of, joined_des, halves_in, box_bits, keys_in, Scheduled, exchanges, exchanged};

use des::tables::{LEFT_SHIFTS, PC2};
use des::{HALF, first_state, permute, twice};
use octets::{number_of, octets_of};
use tables::JOINED;

// The halves of a block past the initial permutation. They are carried from a block to the one that is made of it.
#[derive(Clone, Copy)]
pub struct Carried {
    pub left: u32,
    pub right: u32,
}

// A key for the blocks that come: the joined tables, which are made once for a keystream, since a constant is made anew wherever it is read, and the keys of the
// sixteen rounds, two numbers to each.
#[derive(Clone, Copy)]
pub struct PreparedKey {
    pub tables: [u32; 512],
    pub keys: [u32; 32],
    ghost joined: { tables ≡ joined_tables },
}

// ---- the initial permutation and its inverse

// Exchanges each bit that the mask has with the one that stands so many places before it.
fn exchange(x: u64, places: usize, mask: u64) -> u64
    requires { exchanges places mask ≡ true }
    ensures { bits_in 64 result ≡ permuted (exchanged places mask) (bits_in 64 x) }
{
    let differing = (x ^ (x >> places)) & mask;
    x ^ differing ^ (differing << places)
}

// The square of eight by eight bits turned over its rising diagonal, so that its columns are rows, and then the rows brought into IP's order.
fn initial(x: u64) -> u64
    ensures { bits_in 64 result ≡ permuted ip (bits_in 64 x) }
{
    let pairs = exchange(x, 9, 0x0055005500550055);
    let fours = exchange(pairs, 18, 0x0000333300003333);
    let columns = exchange(fours, 36, 0x000000000F0F0F0F);
    let near = exchange(columns, 24, 0x000000FF000000FF);
    exchange(near, 48, 0x000000000000FFFF)
}

// The same exchanges, the last one first.
// Kept: the new form is no plainer: for one function the five exchanges would be a list that is gone over from either end.
fn inverse(x: u64) -> u64
    ensures { bits_in 64 result ≡ permuted ip⁻¹ (bits_in 64 x) }
{
    let near = exchange(x, 48, 0x000000000000FFFF);
    let columns = exchange(near, 24, 0x000000FF000000FF);
    let fours = exchange(columns, 36, 0x000000000F0F0F0F);
    let pairs = exchange(fours, 18, 0x0000333300003333);
    exchange(pairs, 9, 0x0055005500550055)
}

// ---- a block

// 32 bits shifted left by so many places, around.
fn roll(x: u32, places: usize) -> u32
    requires { (0 < places) × (places < 32) }
    ensures { bits_in 32 result ≡ rotated places (bits_in 32 x) }
{
    (x << places) + (x >> (32 - places))
}

// The six top bits of an octet.
fn six(x: u32, octet: usize) -> usize
    requires { octet < 4 }
    ensures { (result ≡ x / 2 ^ (26 - 8 * octet) % 64) × (result < 64) }
{
    ((x >> (26 - 8 * octet)) % 64) as usize
}

// Where box i looks, whose six bits stand in one of two numbers.
fn entry_place(even: u32, odd: u32, i: usize) -> usize
    requires { i < 8 }
    ensures { (result ≡ entry_place (box_bits even odd) i) × (result < 512) }
{
    if i % 2 == 0 {
        return 64 * i + six(even, i / 2);
    }
    64 * i + six(odd, i / 2)
}

impl Carried {
    // The halves of a block.
    pub fn of(block: &[u8; 8]) -> Carried
        ensures { halves_in result ≡ first_halves block.now }
    {
        let x = initial(number_of(block));
        Carried {
            left: (x >> 32) as u32,
            right: (x % 4294967296) as u32,
        }
    }

    // The block of halves, as a number.
    pub fn block(self) -> u64
        ensures { (k : ℕ) → k < 64 → result / 2 ^ (63 - k) % 2 ≡ bit (block_of (halves_in self)) k }
    {
        inverse((u64::from(self.left) << 32) + u64::from(self.right))
    }
}

impl PreparedKey {
    // Prepares a key. Inlined, so that the tables are laid once where the key stands: a key that is handed out is laid twice.
    #[inline(always)]
    pub fn new(key: &[u8; 8]) -> PreparedKey
        ensures { Scheduled key.now result.keys }
    {
        PreparedKey {
            tables: JOINED,
            keys: round_keys(key),
        }
    }

    // Enciphers a block in place.
    pub fn encipher(&self, block: &mut [u8; 8])
        ensures { (key : List ℕ) → Scheduled key self.now.keys → block.new ≡ joined_des key block.old }
    {
        let halves = self.carry_on(Carried::of(block));
        *block = octets_of(halves.block());
    }

    // The halves of the block that is made of a block with these: after sixteen rounds, in the other order.
    pub fn carry_on(&self, halves: Carried) -> Carried
        ensures { halves_in result ≡ carried_on (keys_in self.now.keys) (halves_in halves) }
    {
        let Carried {
            mut left,
            mut right,
        } = halves;
        for n in 0..16 {
            let next = left ^ self.cipher_function(right, self.keys[2 * n], self.keys[2 * n + 1]);
            left = right;
            right = next;
        }
        Carried {
            left: right,
            right: left,
        }
    }

    // f(R, K). E is eight windows of R, of six bits and four apart: R rolled by 31 places has each second one in the top of an octet, and rolled by 3 the others.
    fn cipher_function(&self, right: u32, even: u32, odd: u32) -> u32
        ensures { bits_in 32 result ≡ joined_f (bits_in 32 right) (box_bits even odd) }
    {
        let first = roll(right, 31) ^ even;
        let second = roll(right, 3) ^ odd;
        let mut sum = 0;
        for i in 0..8 {
            sum ^= self.tables[entry_place(first, second, i)];
        }
        sum
    }
}

// ---- the key schedule

// The six bits from a place on, in the top of an octet.
fn top_six(bits: &[u8; 48], o: usize) -> u32
    requires { (o + 6 ≤ 48) × Bits (λ k. get_or bits.now k 0) }
    ensures { (result < 256) × ((q : ℕ) → q < 6 → result / 2 ^ (7 - q) % 2 ≡ get_or bits.now (o + q) 0) }
{
    let number = 32 * bits[o]
        + 16 * bits[o + 1]
        + 8 * bits[o + 2]
        + 4 * bits[o + 3]
        + 2 * bits[o + 4]
        + bits[o + 5];
    4 * u32::from(number)
}

// The bits of each second box, from box 0 on or from box 1 on, of a round's key.
fn key_number(bits: &[u8; 48], first: usize) -> u32
    requires { Bits (λ k. get_or bits.now k 0) × (first < 2) }
    ensures { (i q : ℕ) → i < 4 → q < 6 → result / 2 ^ (31 - (8 * i + q)) % 2 ≡ get_or bits.now (6 * (2 * i + first) + q) 0 }
{
    let mut number = 0;
    for i in 0..4 {
        number = (number << 8) + top_six(bits, 6 * (2 * i + first));
    }
    number
}

// The bits of C, or of D, twice over; and of both.
const TWICE: usize = 2 * HALF;

const BOTH: usize = 2 * TWICE;

// C and D of a key before the first shift, each twice over, so that each of their shifts stands in them.
fn halves_twice(key: &[u8; 8]) -> [u8; BOTH]
    ensures { result ≡ twice_over (tab (bit key.now) 64) }
{
    let cd = first_state(key);
    let mut halves = [0u8; BOTH];
    twice(&cd[0..HALF], &mut halves[0..TWICE]);
    twice(&cd[HALF..TWICE], &mut halves[TWICE..BOTH]);
    halves
}

// The key of a round, by C and D twice over, permuted choice 2 and how far the round has them shifted.
// Kept: the plain engine reads it so too, out of a prepared key. One reader for both was tried, and it misses the bar of speed: the plain engine's blocks take
// 1.6 times as long, since the compiler then lays it out of line.
fn round_bits(halves: &[u8; BOTH], places: &[u8; 48], shifts: usize) -> [u8; 48]
    requires { (places.now ≡ pc_2) × (shifts ≤ 28) }
    ensures { (key : List ℕ) (n : ℕ) → n < 16 → halves.now ≡ twice_over key → shifts ≡ shifts_to (suc n) → result ≡ round_key key n }
{
    let d = shifts + HALF;
    let mut bits = [0u8; 48];
    permute(&halves[shifts..], &places[0..24], &mut bits[0..24]);
    permute(&halves[d..], &places[24..48], &mut bits[24..48]);
    bits
}

// The keys of a key's sixteen rounds, two numbers to each.
fn round_keys(key: &[u8; 8]) -> [u32; 32]
    ensures { Scheduled key.now result }
{
    let halves = halves_twice(key);
    let places = PC2;
    let mut keys = [0; 32];
    let mut shifts = 0;
    for (n, shift) in LEFT_SHIFTS.iter().enumerate() {
        shifts += usize::from(*shift);
        let bits = round_bits(&halves, &places, shifts);
        keys[2 * n] = key_number(&bits, 0);
        keys[2 * n + 1] = key_number(&bits, 1);
    }
    keys
}
