// A line of text as a record. Its octets, a key, vector or frame, are read into lent ones.
ghost use Rattle.std.specs.Prelude.{◌≡◌, List, ℕ, ◌≤◌, is_none};
ghost use Rattle.std.specs.Bool.{then_some};
ghost use Rattle.text.specs.Walked.{left};
ghost use Rattle.lines.specs.Record.{record_room, key_count, record_in, load_record, open_record, join_record, voice_record, announce_record, line_of};

use crate::pair::{MOST_NUMBER, Pair, next_pair};
use sizes::cipher::{KEY_ROOM, VECTOR_OCTETS};
use sizes::frame::HALF_FRAME_OCTETS;
use text::field::Fields;

pub const LINE_OCTETS: usize = 96;

// The most octets of a record: the larger of a key's and a frame's.
pub const RECORD_ROOM: usize = if KEY_ROOM < HALF_FRAME_OCTETS {
    HALF_FRAME_OCTETS
} else {
    KEY_ROOM
};

// A record but for its octets, which stand beside it.
#[derive(Clone, Copy)]
pub enum Parsed {
    Load { cipher: u8, id: u8, count: usize },
    Open { cipher: u8, id: u8 },
    Join { cipher: u8, id: u8 },
    Voice { mask: u8 },
    Announce,
    Lost,
    End,
}

// A record where no field is left.
fn alone(parsed: Parsed, fields: Fields) -> Option<Parsed>
    ensures { result ≡ then_some (is_none fields.entry.rest) parsed }
{
    let done = fields.is_done();
    done.then_some(parsed)
}

fn load_record(mut fields: Fields, octets: &mut [u8; RECORD_ROOM]) -> Option<Parsed>
    ensures fields { record_in result octets.new ≡ load_record (left fields.entry) }
    ensures fits { key_count result ≤ record_room }
{
    let Pair { cipher, id } = next_pair(&mut fields)?;
    // The key is the rest of the line, two digits an octet.
    let count = fields.rest?.len() / 2;
    if count == 0 || count > KEY_ROOM {
        return None;
    }
    let read = fields.last_hex(&mut octets[..count]);
    read.then_some(Parsed::Load { cipher, id, count })
}

fn open_record(mut fields: Fields, octets: &mut [u8; RECORD_ROOM]) -> Option<Parsed>
    ensures fields { record_in result octets.new ≡ open_record (left fields.entry) }
    ensures fits { key_count result ≤ record_room }
{
    let Pair { cipher, id } = next_pair(&mut fields)?;
    let read = fields.last_hex(&mut octets[..VECTOR_OCTETS]);
    read.then_some(Parsed::Open { cipher, id })
}

fn join_record(mut fields: Fields) -> Option<Parsed>
    ensures fields { (xs : List ℕ) → record_in result xs ≡ join_record (left fields.entry) }
    ensures fits { key_count result ≤ record_room }
{
    let Pair { cipher, id } = next_pair(&mut fields)?;
    alone(Parsed::Join { cipher, id }, fields)
}

fn voice_record(mut fields: Fields, octets: &mut [u8; RECORD_ROOM]) -> Option<Parsed>
    ensures fields { record_in result octets.new ≡ voice_record (left fields.entry) }
    ensures fits { key_count result ≤ record_room }
{
    let mask = fields.number(MOST_NUMBER)?;
    let read = fields.last_hex(&mut octets[..HALF_FRAME_OCTETS]);
    read.then_some(Parsed::Voice { mask: mask as u8 })
}

fn announce_record(fields: Fields, octets: &mut [u8; RECORD_ROOM]) -> Option<Parsed>
    ensures fields { record_in result octets.new ≡ announce_record (left fields.entry) }
    ensures fits { key_count result ≤ record_room }
{
    let read = fields.last_hex(&mut octets[..VECTOR_OCTETS]);
    read.then_some(Parsed::Announce)
}

// The record of a line, where it is one; its octets are the first of the lent ones.
pub fn read(line: &[u8], octets: &mut [u8; RECORD_ROOM]) -> Option<Parsed>
    ensures line { record_in result octets.new ≡ line_of line.now }
    ensures fits { key_count result ≤ record_room }
{
    if line.len() > LINE_OCTETS {
        return None;
    }
    let mut fields = Fields::of(line);
    let [letter] = fields.next()? else {
        return None;
    };
    match *letter {
        b'K' => load_record(fields, octets),
        b'O' => open_record(fields, octets),
        b'J' => join_record(fields),
        b'V' => voice_record(fields, octets),
        b'I' => announce_record(fields, octets),
        b'L' => alone(Parsed::Lost, fields),
        b'E' => alone(Parsed::End, fields),
        _ => None,
    }
}
