// Calls of a receiver from their opening to their end: what became of the words of their slots, and what a report makes of two such calls.
use crate::row::{field, first_octets_of, number};
use calls::call::{Call, TOLD, Terms, UNKNOWN, end, receiver};
use calls::counts::Counts;
use calls::vector::announce;
use report::report;
use voice::slot::{lost, voice};

// What stands for a slot that is lost, and for an announcement; any other number is the mask of a slot that arrives.
const LOST: u8 = 0xFF;

const ANNOUNCED: u8 = 0xFE;

// The call after what it is told: done or held, or as it was where it is refused.
fn tell(call: Call, what: u8, frame: &mut [u8]) -> Call {
    let done = match what {
        LOST => lost(call),
        ANNOUNCED => announce(call, &[0xABu8; 8]),
        mask => voice(call, mask, frame).map(|slot| slot.call),
    };
    done.unwrap_or(call)
}

// The call after all that it is told.
fn go_through(call: Call, told: &[u8], frame: &mut [u8]) -> Call {
    let mut gone = call;
    for what in told {
        gone = tell(gone, *what, frame);
    }
    gone
}

// A receiver as it comes in: told a vector, or joined and without one.
fn received(terms: Terms, joined: bool) -> Call {
    let (position, known) = if joined { (4, UNKNOWN) } else { (0, TOLD) };
    receiver(terms, position, known, [0; 8], Counts::default())
}

// Whether these are the counts of a row, and a report of two such calls has them twice.
fn has_counts(row: &[u8], counts: Counts) -> bool {
    let opened = u32::from(number(row, 6));
    let held = u32::from(number(row, 7));
    let replaced = u32::from(number(row, 8));
    let lost = u32::from(number(row, 9));
    if counts.opened != opened
        || counts.held != held
        || counts.replaced != replaced
        || counts.lost != lost
    {
        return false;
    }
    let Ok(both) = report(&[
        opened,
        held,
        replaced,
        lost,
        counts.opened,
        counts.held,
        counts.replaced,
        counts.lost,
    ]) else {
        return false;
    };
    both.part == 2 * u64::from(opened) && both.whole == 2 * (u64::from(opened) + u64::from(held))
}

// The same in as many of the lent octets as a frame of the row's rate has.
fn counts_in(row: &[u8], call: Call, told: &[u8], room: &mut [u8]) -> bool {
    let length = if number(row, 1) == 1 { 36 } else { 28 };
    if length > room.len() {
        return false;
    }
    let gone = go_through(call, told, &mut room[0..length]);
    match end(gone) {
        Ok((_, counts)) => has_counts(row, counts),
        Err(_) => false,
    }
}

// A row has the cipher type, the rate, the strictness, the key, 1 where the receiver joined and knows no vector, what it is told, and how many words were
// opened, held, replaced and lost.
pub fn holds(row: &[u8]) -> bool {
    let mut key = [0u8; 32];
    let mut told = [0u8; 32];
    if !first_octets_of(row, 3, &mut key) || !first_octets_of(row, 5, &mut told) {
        return false;
    }
    let terms = Terms {
        cipher: number(row, 0),
        key,
        rate: number(row, 1),
        strictness: number(row, 2),
    };
    let call = received(terms, number(row, 4) == 1);
    let count = field(row, 5).len() / 2;
    if count > 32 {
        return false;
    }
    let mut frame = [0u8; 36];
    counts_in(row, call, &told[0..count], &mut frame)
}
