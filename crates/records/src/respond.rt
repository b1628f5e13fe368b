// A line of text, and the output line that it gives.
ghost use Rattle.std.specs.Prelude.{◌≡◌, ◌≤◌, length};
ghost use Rattle.text.specs.Responded.{Responded};
ghost use Rattle.sessions.specs.Session.{Cached};
ghost use Rattle.records.specs.Answered.{answer_room, recorder};
ghost use Rattle.records.specs.Reader.{line_reader};

use crate::output::put_answer;
use crate::step::step;
use calls::call::Call;
use lines::record::{RECORD_ROOM, read};
use sessions::Session;

// How long the output line is, and the call after it.
#[derive(Clone, Copy)]
pub struct Response {
    pub length: usize,
    pub call: Call,
}

// Does what a line says, and writes its output line at the start of lent octets.
pub fn respond(
    line: &[u8],
    book: &mut [u8],
    call: Call,
    session: &mut Session<'_>,
    out: &mut [u8],
) -> Response
    requires { (answer_room ≤ length out.old) × Cached session.old.made call session.old.octets.now }
    ensures responded { Responded line_reader line.now (recorder book.old call) out.old result.length (recorder book.new result.call) out.new }
    ensures cached { Cached session.new.made result.call session.new.octets.now }
    ensures same_octets { session.new.octets.ghost_name ≡ session.old.octets.ghost_name }
    ensures as_long { length session.new.octets.now ≡ length session.old.octets.now }
{
    let mut octets = [0; RECORD_ROOM];
    let parsed = read(line, &mut octets);
    let done = step(parsed, &mut octets, book, call, session);
    let length = put_answer(out, done.answer, done.call, &octets[..done.shown]);
    Response {
        length,
        call: done.call,
    }
}
