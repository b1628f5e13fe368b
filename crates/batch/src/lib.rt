// A recording of a call, step by step: slots, losses and vectors in lent octets, each session's keystream made once.
#![tactic(auto)]

ghost use Rattle.std.specs.Prelude.{◌≡◌, true, List, ℕ, ◌*◌, length};
ghost use Rattle.std.specs.Option.{IfNone, IfSome};
ghost use Rattle.hearing.specs.Hearing.{call_of};
ghost use Rattle.hearing.specs.Heard.{handed};
ghost use Rattle.sessions.specs.Session.{Cached};
ghost use Rattle.batch.specs.Kind.{kind_number, IsNoKind};
ghost use Rattle.batch.specs.Told.{recorded_of, hearing_after};
ghost use Rattle.batch.specs.Batch.{step_octets, slot_in, Lost, Announce, Heard, taken, recorded, batch_of};

use answers::Answer;
use calls::call::Call;
use calls::vector::announce;
use hearing::{Hearing, ONE, call_of, carry, heard};
use sessions::{MOST_SESSION_OCTETS, Session};
use sizes::cipher::VECTOR_OCTETS;
use sizes::frame::{frame_octets, width};

// What a step is.
#[derive(Clone, Copy, PartialEq, Eq)]
enum Kind {
    Voice,
    Lost,
    Announce,
    Heard,
}

impl Kind {
    // By its octet, or none where the octet says none of these.
    fn of(octet: u8) -> Option<Kind>
        ensures numbered { IfSome result (λ kind. octet ≡ kind_number kind) }
        ensures other { IfNone result (IsNoKind octet) }
    {
        match octet {
            1 => Some(Kind::Voice),
            2 => Some(Kind::Lost),
            3 => Some(Kind::Announce),
            4 => Some(Kind::Heard),
            _ => None,
        }
    }
}

// Where its parts are: what it is, the mask, and the frame or the vector.
const KIND: usize = 0;

const MASK: usize = 1;

const LENT: usize = 2;

// Enough for a frame at full rate.
pub const STEP_OCTETS: usize = 38;

// What a step leaves that nothing refuses. A slot may have been held.
#[derive(Clone, Copy)]
struct Recorded {
    held: bool,
    hearing: Hearing,
}

// ---- the kinds of steps

// What is kept, after an operation on the call. A vector that was kept and is handed on begins the call's session, so what was made before is void.
fn kept_on(before: Hearing, call: Call, session: &mut Session<'_>) -> Hearing
    ensures handed { result ≡ handed before.kept before.next call }
    ensures as_they_were { session.new.octets.now ≡ session.old.octets.now }
    ensures made_before { session.new.made ≡ true → (session.old.made ≡ true) × (result.kept ≡ before.kept) }
{
    let after = carry(before, Ok(call));
    if after.kept != before.kept {
        session.made = false;
    }
    after
}

fn voice_step(
    before: Hearing,
    step: &mut [u8],
    session: &mut Session<'_>,
) -> Result<Recorded, Answer>
    requires { (length step.old ≡ step_octets) × Cached session.old.made (call_of before) session.old.octets.now }
    ensures taken { (result, step.new) ≡ recorded_of (taken (slot_in before.call.terms.rate step.old) before step.old) }
    ensures cached { Cached session.new.made (call_of (hearing_after before result)) session.new.octets.now }
{
    let mask = step[MASK];
    let octets = frame_octets(width(before.call.terms.rate));
    let slot = session.voice_slot(call_of(before), mask, &mut step[LENT..LENT + octets])?;
    Ok(Recorded {
        held: slot.held,
        hearing: kept_on(before, slot.call, session),
    })
}

fn lost_step(before: Hearing, session: &mut Session<'_>) -> Result<Recorded, Answer>
    ensures taken { (step : List ℕ) → (result, step) ≡ recorded_of (taken Lost before step) }
    ensures stays_cached { Cached session.old.made (call_of before) session.old.octets.now → Cached session.new.made (call_of (hearing_after before result)) session.new.octets.now }
{
    let call = session.lost_slot(call_of(before))?;
    Ok(Recorded {
        held: false,
        hearing: kept_on(before, call, session),
    })
}

// A vector that is announced begins the call's session, so what was made before is void: a carried vector, if one was known, has given way.
fn announce_step(
    before: Hearing,
    vector: &[u8],
    session: &mut Session<'_>,
) -> Result<Recorded, Answer>
    ensures taken { (step : List ℕ) → (result, step) ≡ recorded_of (taken (Announce vector.now) before step) }
    ensures stays_cached { Cached session.old.made (call_of before) session.old.octets.now → Cached session.new.made (call_of (hearing_after before result)) session.new.octets.now }
{
    let call = session.anew(announce(call_of(before), vector))?;
    Ok(Recorded {
        held: false,
        hearing: kept_on(before, call, session),
    })
}

// One that is heard and kept is the next session's, and the call stays in its own; one that is announced at once begins it.
fn heard_step(before: Hearing, vector: &[u8], session: &mut Session<'_>) -> Result<Recorded, Answer>
    ensures taken { (step : List ℕ) → (result, step) ≡ recorded_of (taken (Heard vector.now) before step) }
    ensures stays_cached { Cached session.old.made (call_of before) session.old.octets.now → Cached session.new.made (call_of (hearing_after before result)) session.new.octets.now }
{
    let hearing = heard(before, vector)?;
    if hearing.kept != ONE {
        session.made = false;
    }
    Ok(Recorded {
        held: false,
        hearing,
    })
}

// ---- a step, and all of them

fn record_step(
    before: Hearing,
    step: &mut [u8],
    session: &mut Session<'_>,
) -> Result<Recorded, Answer>
    requires { (length step.old ≡ step_octets) × Cached session.old.made (call_of before) session.old.octets.now }
    ensures recorded { (result, step.new) ≡ recorded_of (recorded before step.old) }
    ensures cached { Cached session.new.made (call_of (hearing_after before result)) session.new.octets.now }
{
    match Kind::of(step[KIND]) {
        Some(Kind::Voice) => voice_step(before, step, session),
        Some(Kind::Lost) => lost_step(before, session),
        Some(Kind::Announce) => announce_step(before, &step[LENT..LENT + VECTOR_OCTETS], session),
        Some(Kind::Heard) => heard_step(before, &step[LENT..LENT + VECTOR_OCTETS], session),
        None => Err(Answer::OutOfRange),
    }
}

// Steps one after the other, and the number of each one's answer.
pub fn batch(mut hearing: Hearing, steps: &mut [u8], answers: &mut [u8]) -> Hearing
    requires { length steps.old ≡ step_octets * length answers.old }
    ensures { (answers.new, (result, steps.new)) ≡ batch_of (length answers.old) hearing steps.old }
{
    let mut octets = [0; MOST_SESSION_OCTETS];
    let mut session = Session {
        octets: &mut octets,
        made: false,
    };
    for (i, answer) in answers.iter_mut().enumerate() {
        let from = STEP_OCTETS * i;
        let step = &mut steps[from..from + STEP_OCTETS];
        match record_step(hearing, step, &mut session) {
            Ok(recorded) => {
                *answer = u8::from(recorded.held);
                hearing = recorded.hearing;
            }
            Err(refusal) => *answer = refusal.number(),
        }
    }
    hearing
}
