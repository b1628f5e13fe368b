// A call by value, the rules that a good one keeps, and its end.
ghost use Rattle.std.specs.Prelude.{◌≡◌, ◌&&◌, eqb};
ghost use Rattle.answers.specs.Outcomes.{result_of};
ghost use Rattle.calls.specs.Call.{receiving_end, unknown_vector, by_default, terms_right, vector_right, counts_right, is_closed, is_open, good_call, known_number, untold, sending_end, told_vector, call_at, no_call, end_of};
ghost use Rattle.calls.specs.Counts.{no_counts};

use crate::counts::{Counts, receiver_counts_right, total};
use answers::Answer;
use ciphers::key::key_right;
use octets::all_zero;
use sizes::cipher::{KEY_ROOM, Scramble, VECTOR_OCTETS, session_slots};
use sizes::frame::is_rate;

// Kept: an end, what is known of a vector, a strictness, a cipher and a rate are numbers, here and in the structs below, and no enums or Options: octets
// that a host held can have any number there, and `held::call::read` and `write` owe each its own struct, by held's `hearing_in` and `octets_of`. What no good
// call has is a bad one by `good_call`, of which theorems speak.
pub const CLOSED: u8 = 0;

pub const SENDING: u8 = 1;

pub const RECEIVING: u8 = 2;

// What is known of a session's vector.
pub const UNKNOWN: u8 = 0;

pub const TOLD: u8 = 1;

pub const CARRIED: u8 = 2;

// What a receiver does in a session whose announcement didn't come: it goes on with the generator's next vector where it knew the last, or it holds.
pub const DEFAULT: u8 = 0;

pub const STRICT: u8 = 1;

// What an opening fixes. A sender's strictness is 0.
#[derive(Clone, Copy, PartialEq, Eq)]
pub struct Terms {
    pub cipher: u8,
    pub key: [u8; KEY_ROOM],
    pub rate: u8,
    pub strictness: u8,
}

// Closed is all zero. A scramble vector is told and zeros, an unknown vector is zeros, and a strict receiver carries none. Only a receiver counts words.
#[derive(Clone, Copy, PartialEq, Eq)]
pub struct Call {
    pub end: u8,
    pub terms: Terms,
    pub position: u8,
    pub known: u8,
    pub vector: [u8; VECTOR_OCTETS],
    pub counts: Counts,
}

// ---- the rules

#[tactic(auto, unfolding(crate::specs::Call::terms_right))]
pub(crate) fn terms_right(end: u8, rate: u8, strictness: u8) -> bool
    ensures { result ≡ terms_right end rate strictness }
{
    is_rate(rate) && (strictness == DEFAULT || strictness == STRICT && end == RECEIVING)
}

#[tactic(auto, unfolding(crate::specs::Call::vector_right))]
fn vector_right(end: u8, cipher: u8, strictness: u8, known: u8, zeros: bool) -> bool
    ensures { result ≡ vector_right end cipher strictness known zeros }
{
    if cipher == Scramble::TYPE {
        return known == TOLD && zeros;
    }
    if end == SENDING {
        return known == TOLD && !zeros;
    }
    match known {
        UNKNOWN => zeros,
        CARRIED => strictness == DEFAULT,
        _ => known == TOLD,
    }
}

// Whether a receiver has known no vector so far.
fn never_known(strictness: u8, known: u8) -> bool
    ensures { result ≡ (eqb strictness by_default && eqb known unknown_vector) }
{
    strictness == DEFAULT && known == UNKNOWN
}

#[tactic(auto, unfolding(crate::specs::Call::counts_right))]
fn counts_right(
    end: u8,
    cipher: u8,
    strictness: u8,
    known: u8,
    position: u8,
    counts: Counts,
) -> bool
    ensures { result ≡ counts_right end cipher strictness known position counts }
{
    if end == SENDING {
        return total(counts) == 0;
    }
    receiver_counts_right(
        cipher == Scramble::TYPE,
        never_known(strictness, known),
        position,
        counts,
    )
}

fn is_closed(call: Call) -> bool
    ensures { result ≡ is_closed call }
{
    call == no_call()
}

#[tactic(auto, unfolding(crate::specs::Call::is_open, crate::specs::Call::open_tests))]
fn is_open(call: Call) -> bool
    ensures { result ≡ is_open call }
{
    let terms = call.terms;
    let vector = call.vector;
    SENDING <= call.end
        && call.end <= RECEIVING
        && key_right(terms.cipher, terms.key)
        && terms_right(call.end, terms.rate, terms.strictness)
        && usize::from(call.position) < session_slots(terms.cipher)
        && vector_right(
            call.end,
            terms.cipher,
            terms.strictness,
            call.known,
            all_zero(&vector),
        )
        && counts_right(
            call.end,
            terms.cipher,
            terms.strictness,
            call.known,
            call.position,
            call.counts,
        )
}

#[tactic(auto, unfolding(crate::specs::Call::good_call))]
pub fn good_call(call: Call) -> bool
    ensures { result ≡ good_call call }
{
    is_closed(call) || is_open(call)
}

// ---- a call made

pub fn no_call() -> Call
    ensures { result ≡ no_call }
{
    Call {
        end: CLOSED,
        terms: Terms {
            cipher: 0,
            key: [0; KEY_ROOM],
            rate: 0,
            strictness: 0,
        },
        position: 0,
        known: UNKNOWN,
        vector: [0; VECTOR_OCTETS],
        counts: Counts::default(),
    }
}

pub fn sender(terms: Terms, position: u8, vector: [u8; VECTOR_OCTETS]) -> Call
    ensures { result ≡ call_at sending_end terms position told_vector vector no_counts }
{
    Call {
        end: SENDING,
        terms,
        position,
        known: TOLD,
        vector,
        counts: Counts::default(),
    }
}

pub fn receiver(
    terms: Terms,
    position: u8,
    known: u8,
    vector: [u8; VECTOR_OCTETS],
    counts: Counts,
) -> Call
    ensures { result ≡ call_at receiving_end terms position known vector counts }
{
    Call {
        end: RECEIVING,
        terms,
        position,
        known,
        vector,
        counts,
    }
}

// What is known of a vector that was not told. Scramble's is zeros all the same.
pub fn untold(cipher: u8) -> u8
    ensures { result ≡ known_number (untold cipher) }
{
    if cipher == Scramble::TYPE {
        return TOLD;
    }
    UNKNOWN
}

// ---- its end

// No call, and what it has counted.
pub fn end(call: Call) -> Result<(Call, Counts), Answer>
    ensures { result ≡ result_of (end_of call) }
{
    if !good_call(call) {
        return Err(Answer::Bad);
    }
    if call.end == CLOSED {
        return Err(Answer::NotNow);
    }
    Ok((no_call(), call.counts))
}
