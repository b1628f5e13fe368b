// An output line: the answer number, the position and the frame, or what stands for nothing, parted by tabs.
ghost use Rattle.std.specs.Prelude.{◌+◌, ◌*◌, ◌≤◌, length};
ghost use Rattle.text.specs.Decimal.{decimal};
ghost use Rattle.text.specs.Hex.{hex_text};
ghost use Rattle.lines.specs.Record.{record_frame};
ghost use Rattle.records.specs.Answered.{place, shown, answer_line, number_room, answer_room};
ghost use Rattle.records.specs.Lent.{Laid};

use answers::Answer;
use calls::call::{CLOSED, Call};
use text::decimal::put_decimal;
use text::hex::put_hex;

// Each of these writes from a place on, and answers the place after it.

fn put(out: &mut [u8], at: usize, text: &[u8]) -> usize
    requires { at + length text.now ≤ length out.old }
    ensures { Laid (length text.now) out.old at text.now out.new result }
{
    let end = at + text.len();
    out[at..end].copy_from_slice(text);
    end
}

fn put_number(out: &mut [u8], at: usize, n: u8) -> usize
    requires { at + number_room ≤ length out.old }
    ensures { Laid number_room out.old at (decimal n) out.new result }
{
    at + put_decimal(&mut out[at..], u32::from(n))
}

fn put_octets(out: &mut [u8], at: usize, octets: &[u8]) -> usize
    requires { (at + 2 * length octets.now ≤ length out.old) × (length octets.now ≤ record_frame) }
    ensures { Laid (2 * record_frame) out.old at (hex_text octets.now) out.new result }
{
    let end = at + 2 * octets.len();
    put_hex(&mut out[at..end], octets);
    end
}

fn put_place(out: &mut [u8], at: usize, call: Call) -> usize
    requires { at + number_room ≤ length out.old }
    ensures { Laid number_room out.old at (place call) out.new result }
{
    if call.end == CLOSED {
        return put(out, at, b"-");
    }
    put_number(out, at, call.position)
}

fn put_frame(out: &mut [u8], at: usize, frame: &[u8]) -> usize
    requires { (at + 2 * record_frame ≤ length out.old) × (length frame.now ≤ record_frame) }
    ensures { Laid (2 * record_frame) out.old at (shown frame.now) out.new result }
{
    if frame.is_empty() {
        return put(out, at, b"-");
    }
    put_octets(out, at, frame)
}

// The output line, at the start of lent octets; how many it has.
pub fn put_answer(out: &mut [u8], answer: Answer, call: Call, frame: &[u8]) -> usize
    requires { (answer_room ≤ length out.old) × (length frame.now ≤ record_frame) }
    ensures { Laid answer_room out.old 0 (answer_line answer call frame.now) out.new result }
{
    let number = put_number(out, 0, answer.number());
    let first = put(out, number, b"\t");
    let place = put_place(out, first, call);
    let second = put(out, place, b"\t");
    let shown = put_frame(out, second, frame);
    put(out, shown, b"\n")
}
