// How a packet begins. It has its own copy of the key, and does not keep what it was opened for.
ghost use Rattle.std.specs.Prelude.{◌≡◌, ◌&&◌};
ghost use Rattle.answers.specs.Outcomes.{result_of};
ghost use Rattle.data.specs.Kinds.{is_kind};
ghost use Rattle.data.specs.Opening.{is_end, open_of};

use crate::kind::is_kind;
use crate::packet::{NONE, Packet, good_packet};
use answers::Answer;
use openings::{opening_key_with, session_vector};

// Kept: an end is a number, as the C interface gives it, one that is neither too.
pub const TO_RECEIVE: u8 = 0;

pub const TO_SEND: u8 = 1;

fn is_end_and_kind(end: u8, kind: u8) -> bool
    ensures { result ≡ (is_end end && is_kind kind) }
{
    if end != TO_RECEIVE && end != TO_SEND {
        return false;
    }
    is_kind(kind)
}

pub fn open(
    packet: Packet,
    end: u8,
    kind: u8,
    cipher: u8,
    id: u8,
    vector: &[u8],
    book: &[u8],
) -> Result<Packet, Answer>
    ensures { result ≡ result_of (open_of packet end kind cipher id vector.now book.now) }
{
    let key = opening_key_with(
        end == TO_SEND,
        is_end_and_kind(end, kind),
        !good_packet(packet),
        packet.kind != NONE,
        cipher,
        id,
        vector,
        book,
    )?;
    Ok(Packet {
        kind,
        cipher,
        key,
        count: 0,
        vector: session_vector(cipher, vector),
    })
}
