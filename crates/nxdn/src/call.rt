// A call, for C.
ghost use Rattle.std.specs.Prelude.{◌≡◌, [], length};
ghost use Rattle.nxdn.specs.Operations.{Open, Start, Join, Voice, Lost, End, Announce, handed_out};
ghost use Rattle.nxdn.specs.Interface.{Of, Heard, on_call, on_batch, Next, on_look};

use crate::WRONG_LENGTH;
use crate::lent::{call_in, operate};
use answers::Answer;
use batch::STEP_OCTETS;
use calls::counts::Counts;
use hearing::{call_of, carry};
use held::call::write;

// ---- how it begins

pub fn nxdn_open(
    call: &mut [u8],
    cipher: u8,
    id: u8,
    rate: u8,
    strictness: u8,
    vector: &[u8],
    book: &[u8],
) -> u8
    ensures { (result, (call.new, [])) ≡ on_call book.now (Of (Open cipher id rate strictness vector.now)) call.old [] }
{
    operate(
        call,
        |before| calls::opening::open(before, cipher, id, rate, strictness, vector, book),
    )
}

pub fn nxdn_start(call: &mut [u8], cipher: u8, id: u8, rate: u8, vector: &[u8], book: &[u8]) -> u8
    ensures { (result, (call.new, [])) ≡ on_call book.now (Of (Start cipher id rate vector.now)) call.old [] }
{
    operate(
        call,
        |before| calls::opening::start(before, cipher, id, rate, vector, book),
    )
}

pub fn nxdn_join(call: &mut [u8], cipher: u8, id: u8, rate: u8, strictness: u8, book: &[u8]) -> u8
    ensures { (result, (call.new, [])) ≡ on_call book.now (Of (Join cipher id rate strictness)) call.old [] }
{
    operate(
        call,
        |before| calls::opening::join(before, cipher, id, rate, strictness, book),
    )
}

// ---- its slots

pub fn nxdn_voice(call: &mut [u8], mask: u8, frame: &mut [u8]) -> u8
    ensures { (result, (call.new, frame.new)) ≡ on_call [] (Of (Voice mask frame.old)) call.old frame.old }
{
    // Kept: not by operate, since what a closure's call leaves in a frame that it captures is in none of its predicates.
    let Some(before) = call_in(call) else {
        return WRONG_LENGTH;
    };
    match voice::slot::voice(call_of(before), mask, frame) {
        Ok(slot) => {
            write(call, carry(before, Ok(slot.call)));
            u8::from(slot.held)
        }
        Err(answer) => answer.number(),
    }
}

pub fn nxdn_lost(call: &mut [u8]) -> u8
    ensures { (result, (call.new, [])) ≡ on_call [] (Of Lost) call.old [] }
{
    operate(call, |before| voice::slot::lost(before))
}

// ---- its vectors

pub fn nxdn_announce(call: &mut [u8], vector: &[u8]) -> u8
    ensures { (result, (call.new, [])) ≡ on_call [] (Of (Announce vector.now)) call.old [] }
{
    operate(call, |before| calls::vector::announce(before, vector))
}

pub fn nxdn_heard(call: &mut [u8], vector: &[u8]) -> u8
    ensures { (result, (call.new, [])) ≡ on_call [] (Heard vector.now) call.old [] }
{
    let Some(before) = call_in(call) else {
        return WRONG_LENGTH;
    };
    match hearing::heard(before, vector) {
        Ok(after) => {
            write(call, after);
            0
        }
        Err(answer) => answer.number(),
    }
}

pub fn nxdn_next_vector(call: &[u8], vector: &mut [u8]) -> u8
    ensures { (result, vector.new) ≡ on_look Next call.now vector.old }
{
    let Some(before) = call_in(call) else {
        return WRONG_LENGTH;
    };
    Answer::from(calls::vector::next_vector(call_of(before), vector)).number()
}

// ---- a recording of these

// The steps have STEP_OCTETS octets to an answer. (A product of lengths may be more than a number holds, so they are divided.)
pub fn nxdn_batch(call: &mut [u8], steps: &mut [u8], answers: &mut [u8]) -> u8
    ensures { (result, (call.new, (steps.new, answers.new))) ≡ on_batch call.old steps.old answers.old }
{
    let Some(before) = call_in(call) else {
        return WRONG_LENGTH;
    };
    if steps.len() / STEP_OCTETS != answers.len() {
        return WRONG_LENGTH;
    }
    if steps.len() % STEP_OCTETS != 0 {
        return WRONG_LENGTH;
    }
    let after = batch::batch(before, steps, answers);
    write(call, after);
    0
}

// ---- its end

const COUNTS: usize = 4;

fn lay_counts(counts: &mut [u32], counted: Counts)
    requires { length counts.old ≡ 4 }
    ensures { counts.new ≡ handed_out counted }
{
    counts.copy_from_slice(&[counted.opened, counted.held, counted.replaced, counted.lost]);
}

pub fn nxdn_end(call: &mut [u8], counts: &mut [u32]) -> u8
    ensures { (result, (call.new, counts.new)) ≡ on_call [] (Of End) call.old counts.old }
{
    let Some(before) = call_in(call) else {
        return WRONG_LENGTH;
    };
    if counts.len() != COUNTS {
        return WRONG_LENGTH;
    }
    match calls::call::end(call_of(before)) {
        Ok((after, counted)) => {
            lay_counts(counts, counted);
            write(call, carry(before, Ok(after)));
            0
        }
        Err(refusal) => refusal.number(),
    }
}
