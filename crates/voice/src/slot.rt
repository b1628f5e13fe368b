// A voice slot of a call, arrived or lost.
ghost use Rattle.std.specs.Prelude.{◌≡◌, ◌≤◌, ◌<◌, length, true, false, not, eqb};
ghost use Rattle.std.specs.Option.{IfNone, IfSome};
ghost use Rattle.sizes.specs.Ciphers.{session_slots};
ghost use Rattle.sizes.specs.Frame.{words, frame_octets, slot_octets, session_octets};
ghost use Rattle.octets.specs.Lists.{all_zero};
ghost use Rattle.octets.specs.Bits.{bit};
ghost use Rattle.calls.specs.Call.{closed_end, receiving_end, unknown_vector, vector_right, good_call, known_by, sending, receiving, standing, width_of, written, knows};
ghost use Rattle.calls.specs.Counts.{no_counts, plus, total};
ghost use Rattle.answers.specs.Outcomes.{result_of};
ghost use Rattle.voice.specs.Told.{held_of, slot_of};
ghost use Rattle.voice.specs.Slot.{going_on, rides, ridden, slot_on, moved_to, is_full, lost_of, stream_of, in_slot, voice_of, voice_by_octets, session_stream_of, IsSession};

use crate::frame::turn_frame;
use answers::Answer;
use calls::call::{
    CARRIED, CLOSED, Call, DEFAULT, RECEIVING, SENDING, Terms, UNKNOWN, good_call, receiver,
    sender, untold,
};
use calls::counts::{Counts, arrived_words, lost_words, plus, total};
use ciphers::{joined, plain};
use sizes::cipher::{Scramble, VECTOR_OCTETS, session_slots};
use sizes::frame::{
    MOST_SLOT_OCTETS, MOST_WORDS, frame_octets, session_octets, slot_bits, slot_octets, width,
};

// The mask of all words.
const TOP_MASK: u8 = 15;

// ---- a slot on

// Whether a receiver goes on with the generator's next vector.
fn is_riding(terms: Terms, known: u8) -> bool
    ensures { result ≡ rides terms (not (eqb known unknown_vector)) }
{
    terms.cipher != Scramble::TYPE && terms.strictness == DEFAULT && known != UNKNOWN
}

// What a slot moves of a receiver's call: all but what its opening fixed.
// Kept: numbers, as in calls' `Call`, for the reason that is given there.
#[derive(Clone, Copy, PartialEq, Eq)]
pub struct Moved {
    pub position: u8,
    pub known: u8,
    pub vector: [u8; VECTOR_OCTETS],
    pub counts: Counts,
}

// A receiver as its next session starts.
fn next_session(terms: Terms, known: u8, vector: [u8; VECTOR_OCTETS], counts: Counts) -> Moved
    ensures { moved_to terms result ≡ written counts (receiving terms 0 (ridden terms (known_by known vector))) }
{
    if is_riding(terms, known) {
        return Moved {
            position: 0,
            known: CARRIED,
            vector: generator::next_vector(&vector),
            counts,
        };
    }
    Moved {
        position: 0,
        known: untold(terms.cipher),
        vector: [0; VECTOR_OCTETS],
        counts,
    }
}

// A receiver after a slot.
#[tactic(auto, using(calls::proofs::CallLaws::receiver_is), unfolding(crate::specs::Slot::slot_on))]
fn receiver_on(
    terms: Terms,
    position: u8,
    known: u8,
    vector: [u8; VECTOR_OCTETS],
    counts: Counts,
) -> Moved
    requires { (position < session_slots terms.cipher) × (vector_right receiving_end terms.cipher terms.strictness known (all_zero vector) ≡ true) }
    ensures { moved_to terms result ≡ written counts (slot_on (receiving terms position (known_by known vector))) }
{
    let heard = position + 1;
    if usize::from(heard) < session_slots(terms.cipher) {
        return Moved {
            position: heard,
            known,
            vector,
            counts,
        };
    }
    next_session(terms, known, vector, counts)
}

// A receiver's call, moved.
pub fn moved_to(terms: Terms, moved: Moved) -> Call
    ensures { result ≡ moved_to terms moved }
{
    receiver(
        terms,
        moved.position,
        moved.known,
        moved.vector,
        moved.counts,
    )
}

// The vector of a sender's next session.
#[tactic(auto, unfolding(crate::specs::Slot::going_on))]
fn going_on(cipher: u8, vector: [u8; VECTOR_OCTETS]) -> [u8; VECTOR_OCTETS]
    ensures { result ≡ going_on cipher vector }
{
    if cipher == Scramble::TYPE {
        return [0; VECTOR_OCTETS];
    }
    generator::next_vector(&vector)
}

// A sender after a slot.
#[tactic(auto, unfolding(crate::specs::Slot::slot_on))]
fn sender_on(terms: Terms, position: u8, vector: [u8; VECTOR_OCTETS]) -> Call
    requires { position < session_slots terms.cipher }
    ensures { result ≡ written no_counts (slot_on (sending terms position vector)) }
{
    let sent = position + 1;
    if usize::from(sent) < session_slots(terms.cipher) {
        return sender(terms, sent, vector);
    }
    sender(terms, 0, going_on(terms.cipher, vector))
}

// A standing call after a slot with these words, at either end.
fn slot_on(call: Call, slot: Counts) -> Call
    requires { (good_call call ≡ true) × (call.end ≡ closed_end → ⊥) × (is_full (standing call) call.counts ≡ false) × (total slot ≡ words) }
    ensures { result ≡ written (plus call.counts slot) (slot_on (standing call)) }
{
    if call.end == SENDING {
        return sender_on(call.terms, call.position, call.vector);
    }
    let counts = plus(call.counts, slot);
    let moved = receiver_on(call.terms, call.position, call.known, call.vector, counts);
    moved_to(call.terms, moved)
}

// Whether a receiver was told of as many slots as it may be.
#[tactic(auto, using(crate::proofs::SlotLaws::full_by))]
pub fn is_full(call: Call) -> bool
    requires { good_call call ≡ true }
    ensures { result ≡ is_full (standing call) call.counts }
{
    call.end == RECEIVING && total(call.counts) >= u64::from(MOST_WORDS)
}

// ---- a lost slot

pub fn lost(call: Call) -> Result<Call, Answer>
    ensures { result ≡ result_of (lost_of call) }
{
    if !good_call(call) {
        return Err(Answer::Bad);
    }
    if call.end != RECEIVING {
        return Err(Answer::NotNow);
    }
    if is_full(call) {
        return Err(Answer::PastLimit);
    }
    Ok(slot_on(call, lost_words()))
}

// ---- a voice slot

// A slot that was turned, or held as it came, and the call after it.
#[derive(Clone, Copy)]
pub struct Slot {
    pub held: bool,
    pub call: Call,
}

// The frame turned by the bits of the session's slot, which stand for all words, in the mask or not. They are made in room for a slot at any rate, from the octet
// on in which they begin, and with DES by its plain engine: the audio task has little stack.
fn turn_slot(call: Call, mask: u8, frame: &mut [u8])
    requires { (call.position < session_slots call.terms.cipher) × (length frame.old ≡ frame_octets (width_of call.terms)) }
    ensures { frame.new ≡ in_slot stream_of mask frame.old call }
{
    let width = width(call.terms.rate);
    let from = slot_bits(width) * usize::from(call.position);
    let mut room = [0; MOST_SLOT_OCTETS];
    let slot = &mut room[..slot_octets(width)];
    plain::keystream(
        call.terms.cipher,
        call.terms.key,
        call.vector,
        from / 8,
        slot,
    );
    turn_frame(frame, width, mask, slot, from % 8);
}

// Whether a slot is held, where nothing refuses it. Of the frame only the length counts.
fn is_held(call: Call, mask: u8, frame: &[u8]) -> Result<bool, Answer>
    ensures { result ≡ held_of (voice_of call mask frame.now).0 }
{
    if mask > TOP_MASK {
        return Err(Answer::BadMask);
    }
    if !good_call(call) {
        return Err(Answer::Bad);
    }
    if call.end == CLOSED {
        return Err(Answer::NotNow);
    }
    if is_full(call) {
        return Err(Answer::PastLimit);
    }
    if frame.len() != frame_octets(width(call.terms.rate)) {
        return Err(Answer::WrongLength);
    }
    Ok(call.known == UNKNOWN)
}

// Whether a slot is held, and the call after it. The frame is to be turned where it is not.
fn step(call: Call, mask: u8, frame: &[u8]) -> Result<Slot, Answer>
    ensures { result ≡ (slot_of (voice_of call mask frame.now)).0 }
{
    let held = is_held(call, mask, frame)?;
    let call = slot_on(call, arrived_words(mask, !held));
    Ok(Slot { held, call })
}

// A slot sent or received: the words of the mask are turned in the lent frame, where they stand.
pub fn voice(call: Call, mask: u8, frame: &mut [u8]) -> Result<Slot, Answer>
    ensures { (result, frame.new) ≡ slot_of (voice_of call mask frame.old) }
{
    let slot = step(call, mask, frame)?;
    if !slot.held {
        turn_slot(call, mask, frame);
    }
    Ok(slot)
}

// ---- a session's keystream, made once

// The frame turned by the slot's bits of lent octets that are enough for a session.
fn turn_by(call: Call, mask: u8, frame: &mut [u8], session: &[u8])
    requires { (call.position < session_slots call.terms.cipher) × (length frame.old ≡ frame_octets (width_of call.terms)) × (session_octets (width_of call.terms) ≤ length session.now) }
    ensures { frame.new ≡ in_slot (λ d. bit session.now) mask frame.old call }
{
    let width = width(call.terms.rate);
    let place = slot_bits(width) * usize::from(call.position);
    turn_frame(frame, width, mask, session, place);
}

// The same slot, turned by lent octets that hold the session's keystream. Fewer than a session's would leave speech in clear.
pub fn voice_by(call: Call, mask: u8, frame: &mut [u8], session: &[u8]) -> Result<Slot, Answer>
    ensures { (result, frame.new) ≡ slot_of (voice_by_octets session.now call mask frame.old) }
{
    let slot = step(call, mask, frame)?;
    if session.len() < session_octets(width(call.terms.rate)) {
        return Err(Answer::WrongLength);
    }
    if !slot.held {
        turn_by(call, mask, frame, session);
    }
    Ok(slot)
}

// Whether the slot is a receiver's, and done. A call whose session is at hand is good: that isn't tested anew for each slot.
#[tactic(auto, using(crate::proofs::SlotLaws::taken_done))]
fn is_done(call: Call, mask: u8, frame: &[u8]) -> bool
    requires { knows (standing call) ≡ true }
    ensures { result ≡ true → (call.end ≡ receiving_end) × (Answer.Done ≡ (voice_of call mask frame.now).0) }
{
    mask <= TOP_MASK
        && call.end == RECEIVING
        && !is_full(call)
        && frame.len() == frame_octets(width(call.terms.rate))
}

// What a receiver's slot moves, turned by the octets of its session, where it is done; what is refused, and a sender's, is left to `voice_by`, with the frame
// as it came.
pub fn voice_within(call: Call, mask: u8, frame: &mut [u8], session: &[u8]) -> Option<Moved>
    requires { IsSession call session.now }
    ensures frame_after { IfSome result (λ moved. (Answer.Done, (moved_to call.terms moved, frame.new)) ≡ voice_of call mask frame.old) }
    ensures frame_unchanged { IfNone result (frame.new ≡ frame.old) }
{
    if !is_done(call, mask, frame) {
        return None;
    }
    turn_by(call, mask, frame, session);
    let counts = plus(call.counts, arrived_words(mask, true));
    Some(receiver_on(call.terms, call.position, call.known, call.vector, counts))
}

// The keystream of the call's session from bit 0 on, into lent octets of any length, with DES by its joined tables. Without a known vector they stay as they are.
pub fn session_stream(call: Call, session: &mut [u8])
    ensures { session.new ≡ session_stream_of call session.old }
{
    if good_call(call) && call.known != UNKNOWN {
        joined::keystream(call.terms.cipher, call.terms.key, call.vector, 0, session);
    }
}
