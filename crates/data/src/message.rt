// A message of a packet, arrived or lost.
ghost use Rattle.std.specs.Prelude.{◌≡◌, true, ◌+◌, ◌*◌, ◌≤◌, ◌<◌, length};
ghost use Rattle.octets.specs.Bits.{bit};
ghost use Rattle.answers.specs.Outcomes.{result_of, lent_of};
ghost use Rattle.data.specs.Kinds.{is_kind, message_octets, protected_bits};
ghost use Rattle.data.specs.Packet.{most_messages, is_open};
ghost use Rattle.data.specs.Message.{counted, lost_of, turned_by, message_turned, message_of, message_by_octets, packet_stream_of};

use crate::kind::{HEAD_OCTETS, MOST_PROTECTED, message_octets, protected_octets};
use crate::packet::{MOST_MESSAGES, NONE, Packet, good_packet, is_open};
use answers::Answer;
use ciphers::joined;
use octets::turn;

// The packet one message on.
fn count_on(mut packet: Packet) -> Packet
    requires { packet.count < most_messages }
    ensures { result ≡ counted packet }
{
    packet.count += 1;
    packet
}

// ---- a lost message

pub fn lost(packet: Packet) -> Result<Packet, Answer>
    ensures { result ≡ result_of (lost_of packet) }
{
    if !good_packet(packet) {
        return Err(Answer::Bad);
    }
    if packet.kind == NONE || packet.count >= MOST_MESSAGES {
        return Err(Answer::NotNow);
    }
    Ok(count_on(packet))
}

// ---- a message

// The protected octets of a message of a kind, turned where they stand by a stream from bit `from` on, which reaches that far.
fn turn_by(kind: u8, message: &mut [u8], stream: &[u8], from: usize)
    requires { (is_kind kind ≡ true) × (length message.old ≡ message_octets kind) × (from + protected_bits kind ≤ 8 * length stream.now) }
    ensures { message.new ≡ turned_by (λ k. bit stream.now (from + k)) kind message.old }
{
    let part = protected_octets(kind);
    turn(
        &mut message[HEAD_OCTETS..HEAD_OCTETS + part],
        8 * part,
        stream,
        from,
    );
}

// By the message's own bits of the packet's keystream, with DES by its joined tables.
fn turn_message(packet: Packet, message: &mut [u8])
    requires { (is_open packet ≡ true) × (packet.count < most_messages) × (length message.old ≡ message_octets packet.kind) }
    ensures { message.new ≡ message_turned packet message.old }
{
    let part = protected_octets(packet.kind);
    let count = usize::from(packet.count);
    let mut stream = [0; MOST_PROTECTED];
    joined::keystream(
        packet.cipher,
        packet.key,
        packet.vector,
        part * count,
        &mut stream[..part],
    );
    turn_by(packet.kind, message, &stream, 0);
}

// The packet after a message, which is then to be turned.
fn step(packet: Packet, message: &[u8]) -> Result<Packet, Answer>
    ensures { result ≡ (lent_of (message_of packet message.now)).0 }
{
    let next = lost(packet)?;
    if message.len() != message_octets(packet.kind) {
        return Err(Answer::WrongLength);
    }
    Ok(next)
}

// A message sent or received.
pub fn message(packet: Packet, message: &mut [u8]) -> Result<Packet, Answer>
    ensures { (result, message.new) ≡ lent_of (message_of packet message.old) }
{
    let next = step(packet, message)?;
    turn_message(packet, message);
    Ok(next)
}

// ---- a packet's keystream, made once

// The same message, turned by lent octets that hold the packet's keystream. Fewer than reach its end would leave it in clear.
pub fn message_by(packet: Packet, message: &mut [u8], stream: &[u8]) -> Result<Packet, Answer>
    ensures { (result, message.new) ≡ lent_of (message_by_octets stream.now packet message.old) }
{
    let next = step(packet, message)?;
    let part = protected_octets(packet.kind);
    let end = part * usize::from(next.count);
    if stream.len() < end {
        return Err(Answer::WrongLength);
    }
    turn_by(packet.kind, message, stream, 8 * (end - part));
    Ok(next)
}

// The packet's keystream from bit 0 on, into lent octets of any length, with DES by its joined tables. Without an open packet they stay as they are.
pub fn packet_stream(packet: Packet, stream: &mut [u8])
    ensures { stream.new ≡ packet_stream_of packet stream.old }
{
    if !is_open(packet) {
        return;
    }
    joined::keystream(packet.cipher, packet.key, packet.vector, 0, stream);
}
