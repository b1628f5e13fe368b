// Vectors of a call: one announced to a receiver, and the next one of a sender.
ghost use Rattle.std.specs.Prelude.{◌≡◌, true};
ghost use Rattle.answers.specs.Outcomes.{result_of, done_of};
ghost use Rattle.calls.specs.Call.{good_call, standing};
ghost use Rattle.calls.specs.Vector.{awaits, announce_of, generates, next_vector_of};

use crate::call::{Call, RECEIVING, SENDING, TOLD, good_call, receiver};
use answers::Answer;
use sizes::cipher::{Scramble, VECTOR_OCTETS};

// Whether the call waits for a vector: it was told none of this session.
#[tactic(auto, using(crate::proofs::VectorLaws::awaits_by))]
fn is_awaiting(call: Call) -> bool
    requires { good_call call ≡ true }
    ensures { result ≡ awaits (standing call) }
{
    call.end == RECEIVING
        && call.terms.cipher != Scramble::TYPE
        && call.position == 0
        && call.known != TOLD
}

// A vector for the session that begins, once in it; a carried one gives way. It belongs to no session that is under way.
pub fn announce(call: Call, vector: &[u8]) -> Result<Call, Answer>
    ensures { result ≡ result_of (announce_of call vector.now) }
{
    let Ok(own) = <[u8; VECTOR_OCTETS]>::try_from(vector) else {
        return Err(Answer::WrongLength);
    };
    if !good_call(call) {
        return Err(Answer::Bad);
    }
    if !is_awaiting(call) {
        return Err(Answer::NotNow);
    }
    Ok(receiver(call.terms, call.position, TOLD, own, call.counts))
}

// Whether the call is a sender that has a next vector.
#[tactic(auto, using(crate::proofs::VectorLaws::generates_by))]
fn is_generating(call: Call) -> bool
    requires { good_call call ≡ true }
    ensures { result ≡ generates (standing call) }
{
    call.end == SENDING && call.terms.cipher != Scramble::TYPE
}

// L(S) of the sender's session, written into lent octets.
pub fn next_vector(call: Call, out: &mut [u8]) -> Result<(), Answer>
    ensures { (result, out.new) ≡ done_of (next_vector_of call out.old) }
{
    if out.len() != VECTOR_OCTETS {
        return Err(Answer::WrongLength);
    }
    if !good_call(call) {
        return Err(Answer::Bad);
    }
    if !is_generating(call) {
        return Err(Answer::NotNow);
    }
    out.copy_from_slice(&generator::next_vector(&call.vector));
    Ok(())
}
