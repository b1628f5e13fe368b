// What a record does to the book and the call.
ghost use Rattle.std.specs.Prelude.{◌≡◌, true, List, ℕ, ◌≤◌, length, take};
ghost use Rattle.octets.specs.Tests.{pick};
ghost use Rattle.answers.specs.Numbers.{is_done};
ghost use Rattle.answers.specs.Outcomes.{answer_in, result_of};
ghost use Rattle.keyentry.specs.Name.{no_name};
ghost use Rattle.keybook.specs.Operations.{load_of};
ghost use Rattle.calls.specs.Call.{end_of};
ghost use Rattle.voice.specs.Slot.{voice_of};
ghost use Rattle.lines.specs.Record.{record_frame, record_room, record_in, key_count};
ghost use Rattle.records.specs.Step.{without_counts, as_effect, step_of};
ghost use Rattle.sessions.specs.Session.{Cached, call_after};

use answers::Answer;
use calls::call::{Call, STRICT, end};
use calls::opening::{join, open};
use calls::vector::announce;
use keybook::load;
use keyentry::names::NAME_OCTETS;
use lines::record::{Parsed, RECORD_ROOM};
use sessions::Session;
use sizes::cipher::VECTOR_OCTETS;
use sizes::frame::{HALF_FRAME_OCTETS, Half};

// What the output line of a record says: the answer, the call after it, and how many octets of the frame are shown.
// Kept: no Result, since the line says all three whatever the answer is.
#[derive(Clone, Copy)]
pub struct Outcome {
    pub answer: Answer,
    pub call: Call,
    pub shown: usize,
}

// ---- the kinds of records

// No frame is shown.
fn no_frame(answer: Answer, call: Call) -> Outcome
    ensures { (result.answer ≡ answer) × (result.call ≡ call) × (result.shown ≡ 0) }
{
    Outcome {
        answer,
        call,
        shown: 0,
    }
}

// What an operation on the call leaves: a refusal leaves it as it was.
fn after(call: Call, done: Result<Call, Answer>) -> Outcome
    ensures { (result.answer ≡ answer_in done) × (result.call ≡ call_after call done) × (result.shown ≡ 0) }
{
    match done {
        Ok(call) => no_frame(Answer::Done, call),
        Err(answer) => no_frame(answer, call),
    }
}

// A key without a name.
fn load_unnamed(book: &mut [u8], cipher: u8, id: u8, key: &[u8]) -> Answer
    ensures { (result, book.new) ≡ load_of book.old cipher id no_name key.now }
{
    let name = [0; NAME_OCTETS];
    Answer::from(load(book, cipher, id, &name, key))
}

// A held slot's frame is not shown.
fn voice_slot(call: Call, mask: u8, frame: &mut [u8], session: &mut Session<'_>) -> Outcome
    requires { (length frame.old ≡ record_frame) × Cached session.old.made call session.old.octets.now }
    ensures slot { (result.answer, (result.call, frame.new)) ≡ voice_of call mask frame.old }
    ensures shown { result.shown ≡ pick (is_done result.answer) record_frame 0 }
    ensures cached { Cached session.new.made result.call session.new.octets.now }
    ensures same_octets { session.new.octets.ghost_name ≡ session.old.octets.ghost_name }
    ensures as_long { length session.new.octets.now ≡ length session.old.octets.now }
{
    match session.voice_slot(call, mask, frame) {
        Ok(slot) if slot.held => no_frame(Answer::Held, slot.call),
        Ok(slot) => Outcome {
            answer: Answer::Done,
            call: slot.call,
            shown: HALF_FRAME_OCTETS,
        },
        Err(answer) => no_frame(answer, call),
    }
}

// The program prints no counts.
fn ended(call: Call) -> Result<Call, Answer>
    ensures { result ≡ result_of (without_counts (end_of call)) }
{
    let (after, _) = end(call)?;
    Ok(after)
}

// A record whose octets stand beside it: the frame of a voice slot is turned there.
pub fn step(
    parsed: Option<Parsed>,
    octets: &mut [u8; RECORD_ROOM],
    book: &mut [u8],
    call: Call,
    session: &mut Session<'_>,
) -> Outcome
    requires { (key_count parsed ≤ record_room) × Cached session.old.made call session.old.octets.now }
    ensures effect { as_effect result.answer book.new result.call (take result.shown octets.new) ≡ step_of (record_in parsed octets.old) book.old call }
    ensures cached { (result.shown ≤ record_frame) × Cached session.new.made result.call session.new.octets.now }
    ensures same_octets { session.new.octets.ghost_name ≡ session.old.octets.ghost_name }
    ensures as_long { length session.new.octets.now ≡ length session.old.octets.now }
{
    let Some(parsed) = parsed else {
        return no_frame(Answer::Malformed, call);
    };
    let vector = &octets[..VECTOR_OCTETS];
    let done = match parsed {
        Parsed::Load { cipher, id, count } => {
            return no_frame(load_unnamed(book, cipher, id, &octets[..count]), call);
        }
        Parsed::Voice { mask } => {
            return voice_slot(call, mask, &mut octets[..HALF_FRAME_OCTETS], session);
        }
        Parsed::Open { cipher, id } => {
            session.anew(open(call, cipher, id, Half::RATE, STRICT, vector, book))
        }
        Parsed::Join { cipher, id } => {
            session.anew(join(call, cipher, id, Half::RATE, STRICT, book))
        }
        Parsed::Announce => session.anew(announce(call, vector)),
        Parsed::Lost => session.lost_slot(call),
        Parsed::End => session.anew(ended(call)),
    };
    after(call, done)
}
