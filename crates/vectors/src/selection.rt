// Which of DES's selection entries a set of rows looks at: an entry that no row looks at could be wrong unseen.
ghost use Rattle.std.specs.Prelude.{◌≡◌, ◌<◌, length};

use crate::row::{is_row, octets_of};
use des::PreparedKey;
use text::part::{LINE_END, part_end};

// The entries of the eight boxes.
pub const ENTRIES: usize = 512;

// Marks the entries that a block's round n looks at.
fn mark_round(prepared: &PreparedKey, block: &[u8; 8], n: usize, marks: &mut [u8; ENTRIES])
    requires { n < 16 }
{
    for i in 0..8 {
        marks[prepared.looks_at(block, n, i)] = 1;
    }
}

// Marks the entries that a block looks at.
fn mark_block(key: &[u8; 8], block: &[u8; 8], marks: &mut [u8; ENTRIES]) {
    let prepared = PreparedKey::new(key);
    for n in 0..16 {
        mark_round(&prepared, block, n, marks);
    }
}

// A row has the key and the plain block first.
fn mark_row(row: &[u8], marks: &mut [u8; ENTRIES]) {
    let mut key = [0; 8];
    let mut block = [0; 8];
    if octets_of(row, 0, &mut key) && octets_of(row, 1, &mut block) {
        mark_block(&key, &block, marks);
    }
}

// Marks the entries that a text's rows look at.
pub fn mark_rows(text: &[u8], marks: &mut [u8; ENTRIES]) {
    for line in text.split(|octet| *octet == LINE_END) {
        if is_row(line) {
            mark_row(line, marks);
        }
    }
}

// How many entries are marked.
pub fn marked(marks: &[u8; ENTRIES]) -> usize {
    marks.iter().filter(|mark| **mark == 1).count()
}
