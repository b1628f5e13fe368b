// What bench/ measures, for C to call. Blocks are enciphered in a chain, each the input of the next, so that no work can be left out.
#![tactic(auto)]

use calls::call::{Call, DEFAULT, TOLD, Terms, no_call, receiver};
use calls::counts::Counts;
use data::kind::DCALL;
use data::packet::Packet;
use sessions::{MOST_SESSION_OCTETS, Session};

// Enciphers a block n times where it stands.
fn chain<Block, Encipher: Fn(&mut Block)>(block: &mut Block, n: usize, encipher: Encipher)
    requires { Encipher.IsAlwaysCallable encipher }
{
    for _ in 0..n {
        encipher(block);
    }
}

fn des_chain(key: &[u8; 8], block: &mut [u8; 8], n: usize) {
    let prepared = des::PreparedKey::new(key);
    chain(block, n, |block| prepared.encipher(block));
}

fn joined_chain(key: &[u8; 8], block: &mut [u8; 8], n: usize) {
    let prepared = joineddes::PreparedKey::new(key);
    chain(block, n, |block| prepared.encipher(block));
}

fn aes_chain(key: &[u8; 32], block: &mut [u8; 16], n: usize) {
    let prepared = aes::PreparedKey::new(key);
    chain(block, n, |block| prepared.encipher(block));
}

// n blocks of DES by its plain engine or of AES, by the key's length.
#[unsafe(no_mangle)]
pub extern "C" fn timed_blocks(key: &[u8], block: &mut [u8], n: usize) {
    if key.len() == 32 {
        if let Ok(key) = key.try_into()
            && let Ok(block) = block.try_into()
        {
            aes_chain(key, block, n);
        }
    } else if let Ok(key) = key.try_into()
        && let Ok(block) = block.try_into()
    {
        des_chain(key, block, n);
    }
}

// n blocks of DES by its joined tables.
#[unsafe(no_mangle)]
pub extern "C" fn timed_joined_blocks(key: &[u8], block: &mut [u8], n: usize) {
    if let Ok(key) = key.try_into()
        && let Ok(block) = block.try_into()
    {
        joined_chain(key, block, n);
    }
}

// The keystream of a session from its first bit on, the key prepared anew, DES by its plain engine or by its joined tables. The key is 32 octets, its own first.
#[unsafe(no_mangle)]
pub extern "C" fn timed_session(
    plain: bool,
    cipher: u8,
    key: &[u8],
    vector: &[u8],
    out: &mut [u8],
) {
    if cipher < 1 || cipher > 3 {
        return;
    }
    let Ok(key) = key.try_into() else {
        return;
    };
    let Ok(vector) = vector.try_into() else {
        return;
    };
    if plain {
        ciphers::plain::keystream(cipher, key, vector, 0, out);
    } else {
        ciphers::joined::keystream(cipher, key, vector, 0, out);
    }
}

// A DCALL packet that has had so many messages. The key is 32 octets, its own first.
fn packet_of(cipher: u8, key: [u8; 32], vector: [u8; 8], count: u16) -> Packet {
    Packet {
        kind: DCALL,
        cipher,
        key,
        count,
        vector,
    }
}

// A packet's message after so many others.
#[unsafe(no_mangle)]
pub extern "C" fn timed_message(
    cipher: u8,
    key: &[u8],
    vector: &[u8],
    count: u16,
    message: &mut [u8],
) {
    let Ok(key) = key.try_into() else {
        return;
    };
    let Ok(vector) = vector.try_into() else {
        return;
    };
    let _ = data::message::message(packet_of(cipher, key, vector, count), message);
}

// A packet's first n messages, each the octets of the one before, by its keystream, made once in lent octets.
#[unsafe(no_mangle)]
pub extern "C" fn timed_messages(
    cipher: u8,
    key: &[u8],
    vector: &[u8],
    stream: &mut [u8],
    message: &mut [u8],
    n: usize,
) {
    let Ok(key) = key.try_into() else {
        return;
    };
    let Ok(vector) = vector.try_into() else {
        return;
    };
    let mut packet = packet_of(cipher, key, vector, 0);
    data::message::packet_stream(packet, stream);
    for _ in 0..n {
        packet = data::message::message_by(packet, message, stream).unwrap_or(packet);
    }
}

// n slots of all words, received by value one after the other in a call that rides on from its opening; nothing where it can't be opened.
#[unsafe(no_mangle)]
pub extern "C" fn timed_slots(
    book: &[u8],
    cipher: u8,
    id: u8,
    rate: u8,
    vector: &[u8],
    frame: &mut [u8],
    n: usize,
) {
    let opened = calls::opening::open(no_call(), cipher, id, rate, DEFAULT, vector, book);
    let mut call = opened.unwrap_or(no_call());
    for _ in 0..n {
        if let Ok(slot) = voice::slot::voice(call, 15, frame) {
            call = slot.call;
        }
    }
}

// A receiver at the start of a session whose vector it was told. The key is 32 octets, its own first.
fn receiver_of(cipher: u8, key: [u8; 32], rate: u8, vector: [u8; 8]) -> Call {
    let terms = Terms {
        cipher,
        key,
        rate,
        strictness: DEFAULT,
    };
    receiver(terms, 0, TOLD, vector, Counts::default())
}

// n slots of all words in such a call, which rides on, each session's keystream made once.
#[unsafe(no_mangle)]
pub extern "C" fn timed_session_slots(
    cipher: u8,
    key: &[u8],
    rate: u8,
    vector: &[u8],
    frame: &mut [u8],
    n: usize,
) {
    let Ok(key) = key.try_into() else {
        return;
    };
    let Ok(vector) = vector.try_into() else {
        return;
    };
    let mut call = receiver_of(cipher, key, rate, vector);
    let mut octets = [0; MOST_SESSION_OCTETS];
    let mut session = Session {
        octets: &mut octets,
        made: false,
    };
    for _ in 0..n {
        if let Ok(slot) = session.voice_slot(call, 15, frame) {
            call = slot.call;
        }
    }
}
