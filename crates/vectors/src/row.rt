// Known answers as text: lines, fields parted by tabs, octets in upper-case hex.
ghost use Rattle.std.specs.Prelude.{◌≡◌, true, ◌≤◌, length};
ghost use Rattle.text.specs.Hex.{is_hex, hex_text, most_octets};
ghost use Rattle.vectors.specs.Row.{field_of};

use check::same;
use text::decimal::read_number;
use text::field::Fields;
use text::hex::{MOST_OCTETS, read_hex};

// Field n of a row, the first being 0; empty where the row has no such field.
pub fn field(row: &[u8], n: usize) -> &[u8]
    ensures { result.now ≡ field_of row.now n }
{
    Fields::of(row).nth(n).unwrap_or(&row[row.len()..])
}

// Whether a line is a row: neither empty nor a comment.
pub fn is_row(line: &[u8]) -> bool {
    if line.len() == 0 {
        return false;
    }
    line[0] != b'#'
}

// The most that a number of a row is.
const MOST_NUMBER: u32 = 255;

// The number that is field n of a row, or 0 where that is none.
pub fn number(row: &[u8], n: usize) -> u8 {
    read_number(field(row, n), MOST_NUMBER).unwrap_or(0) as u8
}

// Takes the octets that field n of a row has in hex, or answers false where they are not just as many as asked.
pub fn octets_of(row: &[u8], n: usize, out: &mut [u8]) -> bool
    ensures { (result ≡ true → field_of row.now n ≡ hex_text out.new) × (is_hex (length out.old) (field_of row.now n) ≡ true → length out.old ≤ most_octets → result ≡ true) }
{
    if out.len() > MOST_OCTETS {
        return false;
    }
    read_hex(field(row, n), out)
}

// Takes as many octets as field n has, and leaves those after them: a key may be shorter than the array that holds it.
pub fn first_octets_of(row: &[u8], n: usize, out: &mut [u8]) -> bool {
    let count = field(row, n).len() / 2;
    if count > out.len() {
        return false;
    }
    octets_of(row, n, &mut out[0..count])
}

// Whether field n of a row has just these octets in hex; room is lent to read it into.
fn reads_as(row: &[u8], n: usize, octets: &[u8], room: &mut [u8]) -> bool
    requires { length room.old ≡ most_octets }
    ensures { (result ≡ true → field_of row.now n ≡ hex_text octets.now) × (field_of row.now n ≡ hex_text octets.now → length octets.now ≤ most_octets → result ≡ true) }
{
    if octets.len() > room.len() {
        return false;
    }
    let count = octets.len();
    let own = &mut room[0..count];
    if !octets_of(row, n, own) {
        return false;
    }
    same(own, octets)
}

// The same of at most as many octets as a row has.
pub fn has_octets(row: &[u8], n: usize, octets: &[u8]) -> bool
    ensures { (result ≡ true → field_of row.now n ≡ hex_text octets.now) × (field_of row.now n ≡ hex_text octets.now → length octets.now ≤ most_octets → result ≡ true) }
{
    let mut room = [0u8; MOST_OCTETS];
    reads_as(row, n, octets, &mut room)
}
