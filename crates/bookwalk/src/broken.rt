// A book for each rule that is broken.
use crate::asked::{add, begin_named, every, fresh, heading, inventory, spoil};
use keybook::BOOK_OCTETS;
use keyentry::{CIPHER, COUNT, ENTRY_OCTETS, ID, KEY, NAME, READY};
use std::io;

// A good book with two entries of one name, the first of which holds xs, but for one octet.
fn broken(rt: &impl Print, why: &str, xs: &[u8], place: usize, value: u8) -> io::Result<()> {
    let mut book = [0u8; BOOK_OCTETS];
    heading(rt, why)?;
    fresh(rt, &book)?;
    begin_named(rt, &mut book, 1, 5, b"WARD FOUR\0\0\0\0\0\0\0")?;
    add(rt, &mut book, 1, 5, xs)?;
    begin_named(rt, &mut book, 1, 6, b"WARD FOUR\0\0\0\0\0\0\0")?;
    spoil(rt, &mut book, place, value)?;
    every(rt, &mut book, 1, 5)?;
    inventory(rt, &book, 0)
}

pub fn broken_entries(rt: &impl Print) -> io::Result<()> {
    broken(
        rt,
        "a free entry that is not all zero",
        b"\x7f\xff",
        2 * ENTRY_OCTETS + KEY,
        1,
    )?;
    broken(rt, "cipher type 4", b"", CIPHER, 4)?;
    broken(rt, "key ID 64", b"\x7f\xff", ID, 64)?;
    broken(rt, "a count past the key's length", b"\x7f\xff", COUNT, 3)?;
    broken(rt, "a key octet past the count", b"\x7f", KEY + 1, 1)
}

pub fn broken_ready(rt: &impl Print) -> io::Result<()> {
    broken(rt, "ready 2", b"\x7f\xff", READY, 2)?;
    broken(rt, "ready with half a key", b"\x7f", READY, 1)?;
    broken(
        rt,
        "ready with a key that is not allowed",
        b"\x80\x00",
        READY,
        1,
    )?;
    broken(
        rt,
        "two entries for one cipher type and key ID",
        b"\x7f\xff",
        ENTRY_OCTETS + ID,
        5,
    )
}

pub fn broken_names(rt: &impl Print) -> io::Result<()> {
    broken(
        rt,
        "a free entry with a name",
        b"\x7f\xff",
        2 * ENTRY_OCTETS + NAME,
        b'W',
    )?;
    broken(rt, "1F hex in a name", b"\x7f\xff", NAME + 2, 0x1F)?;
    broken(rt, "7F hex in a name", b"\x7f\xff", NAME + 2, 0x7F)?;
    broken(rt, "C4 hex in a name", b"\x7f\xff", NAME + 2, 0xC4)?;
    broken(rt, "a zero and then a name", b"\x7f\xff", NAME, 0)?;
    broken(
        rt,
        "a zero in the middle of a name",
        b"\x7f\xff",
        NAME + 2,
        0,
    )?;
    broken(
        rt,
        "a name that is not padded at its end",
        b"\x7f\xff",
        ENTRY_OCTETS - 1,
        b'W',
    )
}
