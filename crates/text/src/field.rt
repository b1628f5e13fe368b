// The fields of a line, parted by tabs and read one after the other. A field that is not there reads as an empty one: no number, and no octets.
ghost use Rattle.std.specs.Prelude.{◌≡◌, true, ◌≤◌, length, drop, is_none};
ghost use Rattle.text.specs.Parted.{tab_octet, parted};
ghost use Rattle.text.specs.Decimal.{number_in};
ghost use Rattle.text.specs.Hex.{most_octets, hex_octets};
ghost use Rattle.text.specs.Fields.{field_at};
ghost use Rattle.text.specs.Walked.{left, last_hex};

use crate::decimal::read_number;
use crate::hex::read_hex;
use crate::part::{TAB, part_end};

// The fields of a line that are still to be read: None where none is left.
#[derive(Clone, Copy)]
pub struct Fields<'a> {
    pub rest: Option<&'a [u8]>,
}

impl<'a> Fields<'a> {
    // All fields of a line.
    pub fn of(line: &'a [u8]) -> Fields<'a>
        ensures { left result ≡ parted tab_octet line.now }
    {
        Fields { rest: Some(line) }
    }

    // Whether no field is left.
    pub fn is_done(&self) -> bool
        ensures { result ≡ is_none self.now.rest }
    {
        self.rest.is_none()
    }

    // The next field as a number.
    pub fn number(&mut self, most: u32) -> Option<u32>
        ensures number_value { result ≡ number_in most (field_at (left self.old) 0) }
        ensures next_value { left self.new ≡ drop 1 (left self.old) }
    {
        read_number(self.next()?, most)
    }

    // Reads the last field into lent octets, and answers whether it is the hex of as many. It is the rest of the line, which is no hex where
    // other fields follow: a tab is no digit.
    pub fn last_hex(self, octets: &mut [u8]) -> bool
        requires { (1 ≤ length octets.old) × (length octets.old ≤ most_octets) }
        ensures value { result ≡ last_hex (length octets.old) (left self.entry) }
        ensures octets_after { result ≡ true → octets.new ≡ hex_octets (field_at (left self.entry) 0) (length octets.old) }
    {
        let Some(rest) = self.rest else {
            return false;
        };
        read_hex(rest, octets)
    }
}

impl<'a> Iterator for Fields<'a> {
    ghost use Rattle.std.specs.Iterator.{item_count, YieldsFirstRef};
    ghost use Rattle.text.specs.Walked.{left};

    type Item = &'a [u8];

    ghost next_gives = { YieldsFirstRef left };

    ghost remaining = { item_count left };

    // The next field, up to the tab before those that follow it.
    fn next(&mut self) -> Option<&'a [u8]> {
        let rest = self.rest?;
        let end = part_end(rest, 0, TAB);
        self.rest = rest.get(end + 1..);
        Some(&rest[..end])
    }
}
