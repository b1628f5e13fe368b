// Runs a receiver from text records: standard input is read in large pieces, and each line is answered on standard output.
#![tactic(auto)]

ghost use Rattle.std.specs.Prelude.{◌≡◌, ◌≤◌, length, IfOk};
ghost use Rattle.records.specs.Answered.{answer_room};
ghost use Rattle.text.specs.Reader.{fed};
ghost use Rattle.records.specs.Reader.{line_reader, reading_of};

use keybook::BOOK_OCTETS;
use records::reader::{Carry, finish, start, take};
use std::io::{self, Read};

// How much is read at a time, and the room for output. docs/SPEED.md has what other sizes cost.
const PIECE_OCTETS: usize = 131072;

// Answers the lines of a piece, and writes out as often as the room for output is used up. An error of writing ends it; else what is carried on is what
// feeding the whole piece gives.
fn answer(
    rt: &impl Print,
    mut carry: Carry,
    piece: &[u8],
    book: &mut [u8],
    out: &mut [u8],
) -> io::Result<Carry>
    requires { answer_room ≤ length out.old }
    ensures { IfOk result (λ after. reading_of after book.new ≡ (fed line_reader (reading_of carry book.old) piece.now).1) }
{
    let mut rest = piece;
    // Kept: a turn goes on by as much as there was room to answer: no `for` fits.
    while !rest.is_empty() {
        let took = take(carry, rest, book, out);
        rt.write_all(&out[..took.wrote])?;
        carry = took.carry;
        rest = &rest[took.used..];
    }
    Ok(carry)
}

// The end of the input ends the last line.
fn close(rt: &impl Print, carry: Carry, book: &mut [u8], out: &mut [u8]) -> io::Result<()> {
    let last = finish(carry, book, out);
    rt.write_all(&out[..last.wrote])
}

// The exit status stays 0: a line on standard error says that the answers are cut off. Where that cannot be written either, nothing says it.
fn read_failed(rt: &impl Eprint) {
    let _ = rt.eprintln("slotcheck: stopped by a read error");
}

fn write_failed(rt: &impl Eprint) {
    let _ = rt.eprintln("slotcheck: stopped by a write error");
}

// Reads piece after piece. An error ends it, and is said. A proved loop has to end, and nothing says that input does: so it counts its turns, to a number that
// no run uses up.
fn run(rt: &(impl Input + Print + Eprint), book: &mut [u8], piece: &mut [u8], out: &mut [u8])
    requires { answer_room ≤ length out.old }
{
    let mut input = rt.reader();
    let mut carry = start();
    for _ in 0..u64::MAX {
        let Ok(n) = input.read(piece) else {
            read_failed(rt);
            return;
        };
        if n == 0 {
            if close(rt, carry, book, out).is_err() {
                write_failed(rt);
            }
            return;
        }
        let Ok(after) = answer(rt, carry, &piece[..n], book, out) else {
            write_failed(rt);
            return;
        };
        carry = after;
    }
}

fn room() -> [u8; PIECE_OCTETS]
    ensures { length result ≡ 131072 }
{
    [0; PIECE_OCTETS]
}

fn main(rt: HostRuntime) {
    let mut book = [0u8; BOOK_OCTETS];
    let mut piece = room();
    let mut out = room();
    run(&rt, &mut book, &mut piece, &mut out);
}
