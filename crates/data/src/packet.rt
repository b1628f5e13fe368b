// A packet by value, the rules that a good one keeps, and its end.
ghost use Rattle.std.specs.Prelude.{◌≡◌};
ghost use Rattle.answers.specs.Outcomes.{result_of};
ghost use Rattle.data.specs.Packet.{is_closed, is_open, good_packet, no_packet, end_of};

use crate::kind::is_kind;
use answers::Answer;
use ciphers::key::key_right;
use octets::all_zero;
use sizes::cipher::{KEY_ROOM, Scramble, VECTOR_OCTETS};

// The kind of no packet.
pub const NONE: u8 = 0;

pub const MOST_MESSAGES: u16 = 1000;

// No packet is all zero. A scramble vector is zeros.
// Kept: kind and cipher may be any number, since a packet in lent octets may be bad, and held's strings and packets are one to one (packet_read_written).
#[derive(Clone, Copy, PartialEq, Eq)]
pub struct Packet {
    pub kind: u8,
    pub cipher: u8,
    pub key: [u8; KEY_ROOM],
    pub count: u16,
    pub vector: [u8; VECTOR_OCTETS],
}

// ---- the rules

fn is_closed(packet: Packet) -> bool
    ensures { result ≡ is_closed packet }
{
    packet == no_packet()
}

#[tactic(auto, unfolding(crate::specs::Packet::is_open, crate::specs::Packet::open_tests))]
pub fn is_open(packet: Packet) -> bool
    ensures { result ≡ is_open packet }
{
    is_kind(packet.kind)
        && key_right(packet.cipher, packet.key)
        && packet.count <= MOST_MESSAGES
        && (packet.cipher != Scramble::TYPE || all_zero(&packet.vector))
}

#[tactic(auto, unfolding(crate::specs::Packet::good_packet))]
pub fn good_packet(packet: Packet) -> bool
    ensures { result ≡ good_packet packet }
{
    is_closed(packet) || is_open(packet)
}

// ---- its end

pub fn no_packet() -> Packet
    ensures { result ≡ no_packet }
{
    Packet {
        kind: NONE,
        cipher: 0,
        key: [0; KEY_ROOM],
        count: 0,
        vector: [0; VECTOR_OCTETS],
    }
}

// No packet.
pub fn end(packet: Packet) -> Result<Packet, Answer>
    ensures { result ≡ result_of (end_of packet) }
{
    if !good_packet(packet) {
        return Err(Answer::Bad);
    }
    if packet.kind == NONE {
        return Err(Answer::NotNow);
    }
    Ok(no_packet())
}
