// How a call begins: open, join and start. The call has its own copy of the key.
// Kept: what an opening is given comes one by one, here, in openings and in data, as the C interface gives it: any numbers, which it is the opening that refuses.
ghost use Rattle.std.specs.Prelude.{◌≡◌};
ghost use Rattle.answers.specs.Outcomes.{result_of};
ghost use Rattle.calls.specs.Call.{written};
ghost use Rattle.calls.specs.Counts.{no_counts};
ghost use Rattle.calls.specs.Opening.{begun, begun_of, open_of, start_of, joined, join_of};

use crate::call::{
    CLOSED, Call, DEFAULT, RECEIVING, SENDING, TOLD, Terms, good_call, receiver, sender,
    terms_right, untold,
};
use crate::counts::Counts;
use answers::Answer;
use openings::{opening_key, opening_key_with, session_vector};
use sizes::cipher::{SUPERFRAME_SLOTS, Scramble, VECTOR_OCTETS};

// A call at one of its ends, at position 0 with its vector told.
fn begun(end: u8, terms: Terms, vector: [u8; VECTOR_OCTETS]) -> Call
    ensures { result ≡ written no_counts (begun end terms vector) }
{
    if end == SENDING {
        return sender(terms, 0, vector);
    }
    receiver(terms, 0, TOLD, vector, Counts::default())
}

fn begin(
    end: u8,
    call: Call,
    cipher: u8,
    id: u8,
    rate: u8,
    strictness: u8,
    vector: &[u8],
    book: &[u8],
) -> Result<Call, Answer>
    ensures { result ≡ result_of (begun_of end call cipher id rate strictness vector.now book.now) }
{
    let key = opening_key_with(
        end == SENDING,
        terms_right(end, rate, strictness),
        !good_call(call),
        call.end != CLOSED,
        cipher,
        id,
        vector,
        book,
    )?;
    let terms = Terms {
        cipher,
        key,
        rate,
        strictness,
    };
    Ok(begun(end, terms, session_vector(cipher, vector)))
}

pub fn open(
    call: Call,
    cipher: u8,
    id: u8,
    rate: u8,
    strictness: u8,
    vector: &[u8],
    book: &[u8],
) -> Result<Call, Answer>
    ensures { result ≡ result_of (open_of call cipher id rate strictness vector.now book.now) }
{
    begin(RECEIVING, call, cipher, id, rate, strictness, vector, book)
}

pub fn start(
    call: Call,
    cipher: u8,
    id: u8,
    rate: u8,
    vector: &[u8],
    book: &[u8],
) -> Result<Call, Answer>
    ensures { result ≡ result_of (start_of call cipher id rate vector.now book.now) }
{
    begin(SENDING, call, cipher, id, rate, DEFAULT, vector, book)
}

// A receiver at the end of a first superframe.
fn joining(terms: Terms) -> Call
    ensures { result ≡ written no_counts (joined terms) }
{
    let position = if terms.cipher == Scramble::TYPE {
        0
    } else {
        SUPERFRAME_SLOTS
    };
    receiver(
        terms,
        position,
        untold(terms.cipher),
        [0; VECTOR_OCTETS],
        Counts::default(),
    )
}

pub fn join(
    call: Call,
    cipher: u8,
    id: u8,
    rate: u8,
    strictness: u8,
    book: &[u8],
) -> Result<Call, Answer>
    ensures { result ≡ result_of (join_of call cipher id rate strictness book.now) }
{
    let key = opening_key(
        terms_right(RECEIVING, rate, strictness),
        !good_call(call),
        call.end != CLOSED,
        cipher,
        id,
        book,
    )?;
    Ok(joining(Terms {
        cipher,
        key,
        rate,
        strictness,
    }))
}
