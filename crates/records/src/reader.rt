// Lines out of pieces of input. What is carried from piece to piece is a value; the book and the room for output are lent.
ghost use Rattle.std.specs.Prelude.{◌≡◌, List, ℕ, ◌++◌, ◌≤◌, length, take};
ghost use Rattle.text.specs.Responded.{Responded};
ghost use Rattle.sessions.specs.Session.{Cached};
ghost use Rattle.records.specs.Answered.{answer_room, recorder};
ghost use Rattle.records.specs.Reader.{kept_octets, line_reader, reading_of, carried, started, take_of, close_of};

use crate::respond::respond;
use calls::call::{Call, no_call};
use lines::record::LINE_OCTETS;
use sessions::Session;
use sizes::frame::{HALF_FRAME_OCTETS, HALF_SESSION_OCTETS};
use text::carry::keep;
use text::part::{LINE_END, part_end};

// The most octets of a line that are kept: one more than a line may have, which shows that it is too long.
pub const KEPT_OCTETS: usize = LINE_OCTETS + 1;

const NUMBER_ROOM: usize = 3;

// Room for any output line.
pub const ANSWER_ROOM: usize = NUMBER_ROOM + 1 + NUMBER_ROOM + 1 + 2 * HALF_FRAME_OCTETS + 1;

// The octets of the line that has not ended, zeros past them, and the call.
#[derive(Clone, Copy)]
pub struct Carry {
    pub line: [u8; KEPT_OCTETS],
    pub count: usize,
    pub call: Call,
}

// How many octets of a piece were taken, how much output was written, and what is carried on.
#[derive(Clone, Copy)]
pub struct Took {
    pub used: usize,
    pub wrote: usize,
    pub carry: Carry,
}

// How much output the last line gave, and what is carried on.
#[derive(Clone, Copy)]
pub struct Finished {
    pub wrote: usize,
    pub carry: Carry,
}

// ---- what is carried

// Before any input, and without a call.
pub fn start() -> Carry
    ensures { result ≡ started }
{
    Carry {
        line: [0; KEPT_OCTETS],
        count: 0,
        call: no_call(),
    }
}

impl Carry {
    // The same, with no more octets than there are.
    fn within(self) -> Carry
        ensures few { result.count ≤ kept_octets }
        ensures same { (book : List ℕ) → reading_of result book ≡ reading_of self book }
    {
        Carry {
            count: self.count.min(KEPT_OCTETS),
            ..self
        }
    }

    // As it is handed back: zeros past the octets of the line.
    fn cleared(mut self) -> Carry
        requires { self.count ≤ kept_octets }
        ensures { result ≡ carried (take self.count self.line) self.call }
    {
        let count = self.count;
        self.line[count..].fill(0);
        self
    }

    // A line that ends: what was kept of it, and these octets. Where nothing was kept they are the line. How much output it gave.
    fn end_line(
        &mut self,
        octets: &[u8],
        book: &mut [u8],
        session: &mut Session<'_>,
        out: &mut [u8],
    ) -> usize
        requires { (self.old.count ≤ kept_octets) × (answer_room ≤ length out.old) × Cached session.old.made self.old.call session.old.octets.now }
        ensures responded { Responded line_reader (take self.old.count self.old.line ++ octets.now) (recorder book.old self.old.call) out.old result (recorder book.new self.new.call) out.new }
        ensures cached { Cached session.new.made self.new.call session.new.octets.now }
        ensures same_octets { session.new.octets.ghost_name ≡ session.old.octets.ghost_name }
        ensures as_long { length session.new.octets.now ≡ length session.old.octets.now }
        ensures none_kept { (self.new.count ≡ 0) × (length self.new.line ≡ kept_octets) }
    {
        let count = self.count;
        let done = if count > 0 {
            let all = keep(&mut self.line, self.count, octets);
            respond(&self.line[..all], book, self.call, session, out)
        } else {
            respond(octets, book, self.call, session, out)
        };
        self.count = 0;
        self.call = done.call;
        done.length
    }
}

// ---- pieces of input

// From what is carried on, line by line.
fn take_from(mut carry: Carry, piece: &[u8], book: &mut [u8], out: &mut [u8]) -> Took
    requires { carry.count ≤ kept_octets }
    ensures { (result.used, (result.wrote, (result.carry, (book.new, out.new)))) ≡ take_of carry piece.now book.old out.old }
{
    let mut octets = [0; HALF_SESSION_OCTETS];
    let mut session = Session {
        octets: &mut octets,
        made: false,
    };
    let mut used = 0;
    let mut wrote = 0;
    // Kept: a turn goes on by a line, however long that is, and stops where the room for output does: no `for` is plainer.
    while out.len() - wrote >= ANSWER_ROOM {
        let end = part_end(piece, used, LINE_END);
        let rest = &piece[used..end];
        if end == piece.len() {
            let count = carry.count;
            carry.count = keep(&mut carry.line, count, rest);
            return Took {
                used: end,
                wrote,
                carry: carry.cleared(),
            };
        }
        wrote += carry.end_line(rest, book, &mut session, &mut out[wrote..]);
        used = end + 1;
    }
    Took {
        used,
        wrote,
        carry: carry.cleared(),
    }
}

// Takes a piece as far as there is room for output, and at least one octet where there is room for an output line.
pub fn take(carry: Carry, piece: &[u8], book: &mut [u8], out: &mut [u8]) -> Took
    ensures taken { (result.used, (result.wrote, (result.carry, (book.new, out.new)))) ≡ take_of carry piece.now book.old out.old }
    ensures within { (result.used ≤ length piece.now) × (result.wrote ≤ length out.new) }
    ensures goes_on { answer_room ≤ length out.old → 1 ≤ length piece.now → 1 ≤ result.used }
{
    take_from(carry.within(), piece, book, out)
}

// From what is carried on.
fn finish_from(carry: Carry, book: &mut [u8], out: &mut [u8]) -> Finished
    requires { carry.count ≤ kept_octets }
    ensures { (result.wrote, (result.carry, (book.new, out.new))) ≡ close_of carry book.old out.old }
{
    let count = carry.count;
    if out.len() < ANSWER_ROOM || count == 0 {
        return Finished {
            wrote: 0,
            carry: carry.cleared(),
        };
    }
    let mut octets = [0; HALF_SESSION_OCTETS];
    let mut session = Session {
        octets: &mut octets,
        made: false,
    };
    let done = respond(&carry.line[..count], book, carry.call, &mut session, out);
    let after = Carry {
        call: done.call,
        ..start()
    };
    Finished {
        wrote: done.length,
        carry: after,
    }
}

// The end of the input. A last line may lack its line end. With no room for an output line nothing is done, and the line is carried on.
pub fn finish(carry: Carry, book: &mut [u8], out: &mut [u8]) -> Finished
    ensures closed { (result.wrote, (result.carry, (book.new, out.new))) ≡ close_of carry book.old out.old }
    ensures within { result.wrote ≤ length out.new }
{
    finish_from(carry.within(), book, out)
}
