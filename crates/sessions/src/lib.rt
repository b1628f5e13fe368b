// A session's keystream made once, in lent octets, and used from slot to slot while the call stays in the session. A slot by it is the slot of the call.
#![tactic(auto)]

ghost use Rattle.std.specs.Prelude.{◌≡◌, true, List, ℕ, length, IsErr};
ghost use Rattle.answers.specs.Outcomes.{result_of};
ghost use Rattle.sizes.specs.Ciphers.{scrambles};
ghost use Rattle.voice.specs.Slot.{lost_of, voice_of};
ghost use Rattle.voice.specs.Told.{slot_of};
ghost use Rattle.sessions.specs.Session.{Cached, can_hold, call_after, slot_after};

use answers::Answer;
use calls::call::{Call, UNKNOWN, good_call};
use sizes::cipher::{Des, Scramble};
use sizes::frame::{Full, WORDS, session_octets, width};
use voice::slot::{Slot, lost, moved_to, session_stream, voice, voice_by, voice_within};

// Octets enough for a session at any rate.
pub const MOST_SESSION_OCTETS: usize = Full::WIDTH * WORDS * Des::SESSION_SLOTS / 8;

// Lent octets, and whether they hold the keystream of the session that a call is in.
// Kept: a flag beside the octets and no Option of them, since they stay lent in both states.
#[derive(Drop)]
pub struct Session<'a> {
    pub octets: &'a mut [u8],
    pub made: bool,
}

// Whether a call of this cipher at this position is in the session that it was in a slot ago. Every session of scramble is the same.
fn goes_on(cipher: u8, position: u8) -> bool
    ensures { result ≡ true → position ≡ 0 → scrambles cipher ≡ true }
{
    cipher == Scramble::TYPE || position != 0
}

// Makes the keystream of the call's session. False where the call knows no vector, or the octets are too few for its rate.
fn make(call: Call, session: &mut [u8]) -> bool
    ensures { (result ≡ can_hold call session.old) × Cached result call session.new }
{
    if call.known == UNKNOWN {
        return false;
    }
    let octets = session_octets(width(call.terms.rate));
    if session.len() < octets {
        return false;
    }
    session_stream(call, &mut session[..octets]);
    good_call(call)
}

impl Session<'_> {
    // Makes the keystream where it isn't made yet.
    fn hold(&mut self, call: Call) -> bool
        requires { Cached self.old.made call self.old.octets.now }
        ensures held { (result ≡ can_hold call self.old.octets.now) × (self.new.made ≡ result) }
        ensures cached { Cached result call self.new.octets.now }
        ensures same_octets { self.new.octets.ghost_name ≡ self.old.octets.ghost_name }
        ensures as_long { length self.new.octets.now ≡ length self.old.octets.now }
    {
        if !self.made {
            self.made = make(call, self.octets);
        }
        self.made
    }

    // After an operation that begins a session: its keystream is to be made anew. A refusal leaves the call, and its session as it was.
    pub fn anew(&mut self, done: Result<Call, Answer>) -> Result<Call, Answer>
        ensures as_it_was { (result ≡ done) × (self.new.octets.now ≡ self.old.octets.now) }
        ensures same_octets { self.new.octets.ghost_name ≡ self.old.octets.ghost_name }
        ensures made_if_refused { self.new.made ≡ true → (self.old.made ≡ true) × IsErr done }
        ensures stays_cached { (call : Call) → Cached self.old.made call self.old.octets.now → Cached self.new.made (call_after call done) self.new.octets.now }
    {
        if done.is_ok() {
            self.made = false;
        }
        done
    }

    // A voice slot, whose session's keystream is made if it isn't. Where it can't be held the slot makes its own. Most slots are a receiver's that are done: they
    // cost least.
    pub fn voice_slot(&mut self, call: Call, mask: u8, frame: &mut [u8]) -> Result<Slot, Answer>
        requires { Cached self.old.made call self.old.octets.now }
        ensures slot { (result, frame.new) ≡ slot_of (voice_of call mask frame.old) }
        ensures cached { Cached self.new.made (slot_after call result) self.new.octets.now }
        ensures same_octets { self.new.octets.ghost_name ≡ self.old.octets.ghost_name }
        ensures as_long { length self.new.octets.now ≡ length self.old.octets.now }
    {
        if !self.hold(call) {
            return voice(call, mask, frame);
        }
        // One borrow for both. Of a field that is lent at a call a proof knows the length alone.
        let session = &mut *self.octets;
        if let Some(moved) = voice_within(call, mask, frame, session) {
            self.made = goes_on(call.terms.cipher, moved.position);
            return Ok(Slot {
                held: false,
                call: moved_to(call.terms, moved),
            });
        }
        let slot = voice_by(call, mask, frame, session)?;
        self.made = goes_on(call.terms.cipher, slot.call.position);
        Ok(slot)
    }

    // A lost slot. It needs no octets: those that held the call's session hold that of the call after it, where it says so.
    pub fn lost_slot(&mut self, call: Call) -> Result<Call, Answer>
        ensures slot { result ≡ result_of (lost_of call) }
        ensures as_they_were { self.new.octets.now ≡ self.old.octets.now }
        ensures same_octets { self.new.octets.ghost_name ≡ self.old.octets.ghost_name }
        ensures stays_cached { (session : List ℕ) → Cached self.old.made call session → Cached self.new.made (call_after call result) session }
    {
        let after = lost(call)?;
        self.made = self.made && goes_on(call.terms.cipher, after.position);
        Ok(after)
    }
}
