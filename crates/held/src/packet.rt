// A packet in 44 lent octets.
ghost use Rattle.std.specs.Prelude.{◌≡◌, ◌++◌, ◌+◌, length};
ghost use Rattle.sizes.specs.Ciphers.{key_room, vector_octets};
ghost use Rattle.held.specs.Packet.{packet_octets, octets_of, packet_in};

use crate::number::{two_at, write_two};
use data::packet::Packet;
use sizes::cipher::{KEY_ROOM, VECTOR_OCTETS};

const KIND: usize = 0;

const CIPHER: usize = 1;

const COUNT: usize = 2;

const VECTOR: usize = COUNT + 2;

const KEY: usize = VECTOR + VECTOR_OCTETS;

pub const PACKET_OCTETS: usize = KEY + KEY_ROOM;

// The packet that octets hold.
pub fn read(octets: &[u8; PACKET_OCTETS]) -> Packet
    ensures { result ≡ packet_in octets.now }
{
    let mut vector = [0; VECTOR_OCTETS];
    vector.copy_from_slice(&octets[VECTOR..KEY]);
    let mut key = [0; KEY_ROOM];
    key.copy_from_slice(&octets[KEY..PACKET_OCTETS]);
    Packet {
        kind: octets[KIND],
        cipher: octets[CIPHER],
        key,
        count: two_at(octets, COUNT),
        vector,
    }
}

// A packet into octets.
pub fn write(octets: &mut [u8], packet: Packet)
    requires { length octets.old ≡ packet_octets }
    ensures { octets.new ≡ octets_of packet }
{
    octets[KIND] = packet.kind;
    octets[CIPHER] = packet.cipher;
    write_two(&mut octets[COUNT..VECTOR], packet.count);
    octets[VECTOR..KEY].copy_from_slice(&packet.vector);
    octets[KEY..PACKET_OCTETS].copy_from_slice(&packet.key);
}
