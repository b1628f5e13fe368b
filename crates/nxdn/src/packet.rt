// A data packet, for C.
// Kept: four functions of one form, which the C interface has each under its own name. What they share is packet_in and keep_packet.
ghost use Rattle.std.specs.Prelude.{◌≡◌, []};
ghost use Rattle.nxdn.specs.Operations.{OpenPacket, Message, LostMessage, EndPacket};
ghost use Rattle.nxdn.specs.Interface.{on_packet};

use crate::WRONG_LENGTH;
use crate::lent::{keep_packet, packet_in};

pub fn nxdn_packet_open(
    packet: &mut [u8],
    end: u8,
    kind: u8,
    cipher: u8,
    id: u8,
    vector: &[u8],
    book: &[u8],
) -> u8
    ensures { (result, (packet.new, [])) ≡ on_packet book.now (OpenPacket end kind cipher id vector.now) packet.old [] }
{
    let Some(before) = packet_in(packet) else {
        return WRONG_LENGTH;
    };
    keep_packet(
        packet,
        data::opening::open(before, end, kind, cipher, id, vector, book),
    )
}

pub fn nxdn_message(packet: &mut [u8], message: &mut [u8]) -> u8
    ensures { (result, (packet.new, message.new)) ≡ on_packet [] (Message message.old) packet.old message.old }
{
    let Some(before) = packet_in(packet) else {
        return WRONG_LENGTH;
    };
    keep_packet(packet, data::message::message(before, message))
}

pub fn nxdn_packet_lost(packet: &mut [u8]) -> u8
    ensures { (result, (packet.new, [])) ≡ on_packet [] LostMessage packet.old [] }
{
    let Some(before) = packet_in(packet) else {
        return WRONG_LENGTH;
    };
    keep_packet(packet, data::message::lost(before))
}

pub fn nxdn_packet_end(packet: &mut [u8]) -> u8
    ensures { (result, (packet.new, [])) ≡ on_packet [] EndPacket packet.old [] }
{
    let Some(before) = packet_in(packet) else {
        return WRONG_LENGTH;
    };
    keep_packet(packet, data::packet::end(before))
}
