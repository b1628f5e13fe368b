// The rates of speech with the speech bits of a word, and the sizes that follow from these: of a voice frame, and of the keystream of a slot and a session.
ghost use Rattle.std.specs.Prelude.{◌≡◌, ◌≤◌};
ghost use Rattle.sizes.specs.Frame.{is_rate, width, most_width, word_octets, frame_octets, slot_bits, slot_octets, session_octets};

use crate::cipher::Des;

#[derive(Clone, Copy)]
pub struct Half;

impl Half {
    pub const RATE: u8 = 0;

    pub const WIDTH: usize = 49;
}

#[derive(Clone, Copy)]
pub struct Full;

impl Full {
    pub const RATE: u8 = 1;

    pub const WIDTH: usize = 72;
}

// Kept: a rate may be any number in `is_rate` and `width`, so it is no enum.
#[tactic(auto, unfolding(crate::specs::Frame::is_rate))]
pub fn is_rate(rate: u8) -> bool
    ensures { result ≡ is_rate rate }
{
    rate == Half::RATE || rate == Full::RATE
}

pub fn width(rate: u8) -> usize
    ensures { (result ≡ width rate) × (result ≤ most_width) }
{
    if rate == Full::RATE {
        Full::WIDTH
    } else {
        Half::WIDTH
    }
}

// ---- what follows from a width
//
// Kept: a width is a number with a bound in the five contracts below. A struct of it would be no plainer: only `width` would build it, by an invariant,
// and each clause here and above would say `width.bits` for `width`.

pub const WORDS: usize = 4;

pub fn word_octets(width: usize) -> usize
    requires { width ≤ most_width }
    ensures { result ≡ word_octets width }
{
    width.div_ceil(8)
}

pub fn frame_octets(width: usize) -> usize
    requires { width ≤ most_width }
    ensures { result ≡ frame_octets width }
{
    word_octets(width) * WORDS
}

pub fn slot_bits(width: usize) -> usize
    requires { width ≤ most_width }
    ensures { result ≡ slot_bits width }
{
    width * WORDS
}

// The octets that hold a slot's keystream.
pub fn slot_octets(width: usize) -> usize
    requires { width ≤ most_width }
    ensures { result ≡ slot_octets width }
{
    slot_bits(width).div_ceil(8)
}

// The octets that hold the longest session's keystream.
pub fn session_octets(width: usize) -> usize
    requires { width ≤ most_width }
    ensures { result ≡ session_octets width }
{
    slot_bits(width) * Des::SESSION_SLOTS / 8
}

// ---- sizes that have to be known before a call runs
//
// Kept: they write out what the functions above compute, since a constant's value cannot hold a call.

// The octets that hold the keystream of any slot.
pub const MOST_SLOT_OCTETS: usize = (Full::WIDTH * WORDS + 7) / 8;

// Those of half rate, at which the text records are.
pub const HALF_FRAME_OCTETS: usize = (Half::WIDTH + 7) / 8 * WORDS;

pub const HALF_SESSION_OCTETS: usize = Half::WIDTH * WORDS * Des::SESSION_SLOTS / 8;

// ---- the slot limit of a receiving call, and the words of so many slots

const MOST_SLOTS: u32 = 1_000_000;

pub const MOST_WORDS: u32 = WORDS as u32 * MOST_SLOTS;
