// A data packet, for C.
ghost use Rattle.std.specs.Prelude.{◌≡◌, []};
ghost use Rattle.nxdn.specs.Operations.{OpenPacket, Message, LostMessage, EndPacket};
ghost use Rattle.nxdn.specs.Interface.{on_packet};

#[unsafe(no_mangle)]
pub extern "C" fn nxdn_packet_open(
    packet: &mut [u8],
    end: u8,
    kind: u8,
    cipher: u8,
    id: u8,
    vector: &[u8],
    book: &[u8],
) -> u8
    ensures { (result, (packet.new, [])) ≡ on_packet book.now (OpenPacket end kind cipher id vector.now) packet.old [] }
{
    nxdn::packet::nxdn_packet_open(packet, end, kind, cipher, id, vector, book)
}

#[unsafe(no_mangle)]
pub extern "C" fn nxdn_message(packet: &mut [u8], message: &mut [u8]) -> u8
    ensures { (result, (packet.new, message.new)) ≡ on_packet [] (Message message.old) packet.old message.old }
{
    nxdn::packet::nxdn_message(packet, message)
}

#[unsafe(no_mangle)]
pub extern "C" fn nxdn_packet_lost(packet: &mut [u8]) -> u8
    ensures { (result, (packet.new, [])) ≡ on_packet [] LostMessage packet.old [] }
{
    nxdn::packet::nxdn_packet_lost(packet)
}

#[unsafe(no_mangle)]
pub extern "C" fn nxdn_packet_end(packet: &mut [u8]) -> u8
    ensures { (result, (packet.new, [])) ≡ on_packet [] EndPacket packet.old [] }
{
    nxdn::packet::nxdn_packet_end(packet)
}
