// Data messages of each kind, protected by a packet at a row's count; or turned beside it, by the keystream with DES by its plain engine.
use crate::blocks::DesEngine;
use crate::row::{first_octets_of, has_octets, number, octets_of};
use answers::Answer;
use data::kind::{HEAD_OCTETS, MOST_PROTECTED, message_octets, protected_octets};
use data::message::message;
use data::packet::{MOST_MESSAGES, Packet};

// The message that comes next in a packet. False where it isn't sent.
fn send(packet: Packet, octets: &mut [u8]) -> bool {
    message(packet, octets).is_ok()
}

// The same beside the packet, by the keystream with DES by its plain engine. False where there is no such message.
fn turn_plain(packet: Packet, octets: &mut [u8]) -> bool {
    let part = protected_octets(packet.kind);
    if part > MOST_PROTECTED || octets.len() < HEAD_OCTETS + part {
        return false;
    }
    if packet.cipher < 1 || packet.cipher > 3 || packet.count >= MOST_MESSAGES {
        return false;
    }
    let from = part * usize::from(packet.count);
    let mut stream = [0u8; MOST_PROTECTED];
    ciphers::plain::keystream(packet.cipher, packet.key, packet.vector, from, &mut stream);
    octets::turn(
        &mut octets[HEAD_OCTETS..HEAD_OCTETS + part],
        8 * part,
        &stream,
        0,
    );
    true
}

fn turn(engine: DesEngine, packet: Packet, octets: &mut [u8]) -> bool {
    match engine {
        DesEngine::Plain => turn_plain(packet, octets),
        DesEngine::Joined => send(packet, octets),
    }
}

// Whether the message of a row, as the packet's next, is turned into what the row has.
fn protects(engine: DesEngine, row: &[u8], packet: Packet, octets: &mut [u8]) -> bool {
    octets_of(row, 5, octets) && turn(engine, packet, octets) && has_octets(row, 6, octets)
}

// The same in as many of the lent octets as the packet's messages have.
fn protects_in(engine: DesEngine, row: &[u8], packet: Packet, octets: &mut [u8]) -> bool {
    let length = message_octets(packet.kind);
    length <= octets.len() && protects(engine, row, packet, &mut octets[0..length])
}

// A row has the cipher type, the kind, the key, the vector, the count, the message and the protected message.
pub fn holds(engine: DesEngine, row: &[u8]) -> bool {
    let mut key = [0u8; 32];
    let mut vector = [0u8; 8];
    let mut count = [0u8; 2];
    if !first_octets_of(row, 2, &mut key)
        || !octets_of(row, 3, &mut vector)
        || !octets_of(row, 4, &mut count)
    {
        return false;
    }
    let packet = Packet {
        kind: number(row, 1),
        cipher: number(row, 0),
        key,
        count: u16::from_be_bytes(count),
        vector,
    };
    let mut octets = [0u8; 22];
    protects_in(engine, row, packet, &mut octets)
}
