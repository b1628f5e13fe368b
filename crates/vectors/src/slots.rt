// Voice slots at both rates, turned by a sender or a receiver that went through the slots before them itself. The receiver is told the first session's vector
// alone: by default it goes on over each announcement that does not come.
use crate::row::{field, first_octets_of, has_octets, number, octets_of};
use answers::Answer;
use calls::call::{Call, DEFAULT, TOLD, Terms, receiver, sender};
use calls::counts::Counts;
use voice::slot::{Slot, session_stream, voice, voice_by};

// How a row's slot is turned: as it is sent, as it is heard, or heard with the whole session's keystream made first.
// Kept: an enum that is matched, and no closure: it says too which end the call is.
#[derive(Clone, Copy, PartialEq, Eq)]
pub enum Way {
    Sent,
    Heard,
    Whole,
}

// The call after so many slots in which no word is turned; None where one of them is refused or held.
fn go_through(call: Call, slots: u8, frame: &mut [u8]) -> Option<Call> {
    let mut gone = call;
    for _ in 0..slots {
        gone = done(voice(gone, 0, frame))?;
    }
    Some(gone)
}

// The call after a slot that was turned.
fn done(slot: Result<Slot, Answer>) -> Option<Call> {
    match slot {
        Ok(slot) if !slot.held => Some(slot.call),
        _ => None,
    }
}

// A slot by the call's own bits, DES by its plain engine, or by the whole session's, DES by its joined tables.
fn turn(way: Way, call: Call, mask: u8, frame: &mut [u8]) -> Result<Slot, Answer> {
    match way {
        Way::Whole => {
            let mut session = [0u8; 288];
            session_stream(call, &mut session);
            voice_by(call, mask, frame, &session)
        }
        _ => voice(call, mask, frame),
    }
}

// Whether a call turns the frame of a row into what the row has.
fn turns(way: Way, row: &[u8], call: Call, mask: u8, frame: &mut [u8]) -> bool {
    octets_of(row, 6, frame)
        && done(turn(way, call, mask, frame)).is_some()
        && has_octets(row, 7, frame)
}

// Whether it does after the slots that come before. The lent frame is zeros.
fn turns_after(way: Way, row: &[u8], call: Call, mask: u8, frame: &mut [u8]) -> bool {
    match go_through(call, number(row, 4), frame) {
        Some(gone) => turns(way, row, gone, mask, frame),
        None => false,
    }
}

// The same in as many of the lent octets as the frame of the row has. A call refuses a frame that has another length than its rate's.
fn turns_in(way: Way, row: &[u8], call: Call, mask: u8, room: &mut [u8]) -> bool {
    let length = field(row, 6).len() / 2;
    if length > room.len() {
        return false;
    }
    turns_after(way, row, call, mask, &mut room[0..length])
}

// A call at the end that a row's slot is turned at, as its first session starts.
fn call_of(way: Way, terms: Terms, vector: [u8; 8]) -> Call {
    match way {
        Way::Sent => sender(terms, 0, vector),
        _ => receiver(terms, 0, TOLD, vector, Counts::default()),
    }
}

// A row has the cipher type, the rate, the key, the vector of the call's first session, how many slots come before, the mask, the frame and the turned frame:
// it is sent, heard, or heard with the whole session's keystream made first.
pub fn holds(way: Way, row: &[u8]) -> bool {
    let mut key = [0u8; 32];
    let mut vector = [0u8; 8];
    let mut mask = [0u8; 1];
    if !first_octets_of(row, 2, &mut key)
        || !octets_of(row, 3, &mut vector)
        || !octets_of(row, 5, &mut mask)
    {
        return false;
    }
    let terms = Terms {
        cipher: number(row, 0),
        key,
        rate: number(row, 1),
        strictness: DEFAULT,
    };
    let mut frame = [0u8; 36];
    turns_in(way, row, call_of(way, terms, vector), mask[0], &mut frame)
}
