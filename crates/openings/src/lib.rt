// What an opening asks, in order, and the one way in which a ready key is taken out of the book: for a call, and as well for a packet.
#![tactic(auto)]

ghost use Rattle.std.specs.Prelude.{◌≡◌, length};
ghost use Rattle.answers.specs.Outcomes.{result_of};
ghost use Rattle.sizes.specs.Ciphers.{vector_octets};
ghost use Rattle.openings.specs.Ladder.{opening_key_of, session_vector, zero_for, vector_key_of};

use answers::Answer;
use keybook::{BOOK_OCTETS, ready_key};
use keyentry::in_range;
use octets::all_zero;
use sizes::cipher::{KEY_ROOM, Scramble, VECTOR_OCTETS};

// The ready key for what is to be opened. By the caller's word, its own numbers are in range, and it is bad, or busy.
pub fn opening_key(
    ranged: bool,
    bad: bool,
    busy: bool,
    cipher: u8,
    id: u8,
    book: &[u8],
) -> Result<[u8; KEY_ROOM], Answer>
    ensures { result ≡ result_of (opening_key_of ranged bad busy cipher id book.now) }
{
    if book.len() != BOOK_OCTETS {
        return Err(Answer::WrongLength);
    }
    if !ranged || !in_range(cipher, id) {
        return Err(Answer::OutOfRange);
    }
    if bad {
        return Err(Answer::Bad);
    }
    if busy {
        return Err(Answer::NotNow);
    }
    ready_key(book, cipher, id)
}

// ---- the vector

// A lent vector for a session: scramble ignores it.
pub fn session_vector(cipher: u8, vector: &[u8]) -> [u8; VECTOR_OCTETS]
    requires { length vector.now ≡ vector_octets }
    ensures { result ≡ session_vector cipher vector.now }
{
    if cipher == Scramble::TYPE {
        return [0; VECTOR_OCTETS];
    }
    *vector.as_array().unwrap()
}

// Whether a sender's vector is refused because it is zero.
fn is_zero_for(cipher: u8, vector: &[u8]) -> bool
    ensures { result ≡ zero_for cipher vector.now }
{
    cipher != Scramble::TYPE && all_zero(vector)
}

// The ready key for an opening that is given a vector: by the caller's word a sender's, or not.
pub fn opening_key_with(
    sends: bool,
    ranged: bool,
    bad: bool,
    busy: bool,
    cipher: u8,
    id: u8,
    vector: &[u8],
    book: &[u8],
) -> Result<[u8; KEY_ROOM], Answer>
    ensures { result ≡ result_of (vector_key_of sends ranged bad busy cipher id vector.now book.now) }
{
    if vector.len() != VECTOR_OCTETS {
        return Err(Answer::WrongLength);
    }
    let key = opening_key(ranged, bad, busy, cipher, id, book)?;
    if sends && is_zero_for(cipher, vector) {
        return Err(Answer::ZeroVector);
    }
    Ok(key)
}
