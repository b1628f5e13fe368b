// A call that keeps a vector which it heard for its next session, and announces it by itself as that starts.
#![tactic(auto)]

ghost use Rattle.std.specs.Prelude.{◌≡◌, true, IfOk, IsErr};
ghost use Rattle.calls.specs.Call.{good_call, standing};
ghost use Rattle.hearing.specs.Hearing.{hears, under_way, kept_right, bad_call, call_of, alone, keeping};
ghost use Rattle.answers.specs.Outcomes.{result_of};
ghost use Rattle.hearing.specs.Heard.{handed, heard_of};

use answers::Answer;
use calls::call::{Call, RECEIVING, TOLD, good_call, no_call};
use calls::vector::announce;
use octets::all_zero;
use sizes::cipher::{Scramble, VECTOR_OCTETS};

// What is kept.
// Kept: a struct with any number there has its octets, by held's `hearing_in` and `octets_of`, so no Option stands for it.
pub const NONE: u8 = 0;

pub const ONE: u8 = 1;

// None is kept as zeros, and one only in the middle of a session of DES or AES that is received.
#[derive(Clone, Copy, PartialEq, Eq)]
pub struct Hearing {
    pub call: Call,
    pub kept: u8,
    pub next: [u8; VECTOR_OCTETS],
}

// ---- the rules

// Whether the call hears of vectors.
#[tactic(auto, using(crate::proofs::HearingLaws::hears_by))]
fn is_hearing(call: Call) -> bool
    requires { good_call call ≡ true }
    ensures { result ≡ hears (standing call) }
{
    call.end == RECEIVING && call.terms.cipher != Scramble::TYPE
}

// Whether what it hears now is the next session's.
#[tactic(auto, using(crate::proofs::HearingLaws::under_by))]
fn is_under_way(call: Call) -> bool
    ensures { result ≡ under_way (standing call) }
{
    good_call(call) && is_hearing(call) && (call.position != 0 || call.known == TOLD)
}

#[tactic(auto, unfolding(crate::specs::Hearing::kept_right))]
fn kept_right(hearing: Hearing) -> bool
    ensures { result ≡ kept_right hearing.kept hearing.next (standing hearing.call) }
{
    match hearing.kept {
        NONE => all_zero(&hearing.next),
        ONE => is_under_way(hearing.call),
        _ => false,
    }
}

// ---- the call that it is

// A struct that stands for no call: there is no such end.
fn bad_call() -> Call
    ensures { result ≡ bad_call }
{
    Call {
        end: 255,
        ..no_call()
    }
}

#[tactic(auto, unfolding(crate::specs::Hearing::call_of))]
pub fn call_of(hearing: Hearing) -> Call
    ensures { result ≡ call_of hearing }
{
    if !kept_right(hearing) {
        return bad_call();
    }
    hearing.call
}

// ---- heard, and handed on

fn alone(call: Call) -> Hearing
    ensures { result ≡ alone call }
{
    Hearing {
        call,
        kept: NONE,
        next: [0; VECTOR_OCTETS],
    }
}

// A vector that was heard, when the call has come to this.
#[tactic(auto, unfolding(crate::specs::Heard::handed))]
fn hand_on(call: Call, vector: [u8; VECTOR_OCTETS]) -> Hearing
    ensures { result ≡ handed 1 vector call }
{
    if is_under_way(call) {
        return Hearing {
            call,
            kept: ONE,
            next: vector,
        };
    }
    // A call that awaits no vector now goes on as it is.
    alone(announce(call, &vector).unwrap_or(call))
}

// What is kept, after an operation on the call: the call that it left, done or with a slot that was held. What is refused changes nothing.
#[tactic(auto, unfolding(crate::specs::Heard::handed))]
pub fn carry(before: Hearing, after: Result<Call, Answer>) -> Hearing
    ensures carried { IfOk after (λ call. result ≡ handed before.kept before.next call) }
    ensures refused { IsErr after → result ≡ before }
{
    match after {
        Ok(call) if before.kept != ONE => alone(call),
        Ok(call) => hand_on(call, before.next),
        Err(_) => before,
    }
}

// A vector is heard. The last one counts.
pub fn heard(before: Hearing, vector: &[u8]) -> Result<Hearing, Answer>
    ensures { result ≡ result_of (heard_of before vector.now) }
{
    let Ok(next) = <[u8; VECTOR_OCTETS]>::try_from(vector) else {
        return Err(Answer::WrongLength);
    };
    let call = call_of(before);
    if !good_call(call) {
        return Err(Answer::Bad);
    }
    if !is_hearing(call) {
        return Err(Answer::NotNow);
    }
    Ok(hand_on(call, next))
}
