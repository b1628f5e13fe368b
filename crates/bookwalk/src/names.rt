// Names on keys (document 02, W-201): given, kept, shown and erased; bad ones, and their place in the order.
use crate::asked::{
    add, begin, begin_named, erase, finish, fresh, heading, inventory, name, ready, spoil,
};
use keybook::BOOK_OCTETS;
use keyentry::READY;
use std::io;

// Two entries have one name.
fn shared(rt: &impl Print, book: &mut [u8]) -> io::Result<()> {
    heading(rt, "two entries with one name")?;
    fresh(rt, book)?;
    begin_named(rt, book, 1, 5, b"WARD FOUR\0\0\0\0\0\0\0")?;
    begin_named(rt, book, 2, 5, b"WARD FOUR\0\0\0\0\0\0\0")?;
    name(rt, book, 1, 5)?;
    name(rt, book, 2, 5)?;
    inventory(rt, book, 0)?;
    inventory(rt, book, 1)?;
    inventory(rt, book, 2)
}

// Add and finish keep a name, erase doesn't, and the next begin gives another.
fn kept(rt: &impl Print, book: &mut [u8]) -> io::Result<()> {
    heading(rt, "a name is kept until erase")?;
    add(rt, book, 1, 5, b"\x7f\xff")?;
    finish(rt, book, 1, 5)?;
    name(rt, book, 1, 5)?;
    inventory(rt, book, 0)?;
    erase(rt, book, 1, 5)?;
    name(rt, book, 1, 5)?;
    inventory(rt, book, 0)?;
    begin_named(rt, book, 1, 5, b"~ 16 octets long")?;
    name(rt, book, 1, 5)?;
    inventory(rt, book, 0)?;
    name(rt, book, 2, 5)
}

// A name and a key that both fill their octets.
fn beside(rt: &impl Print, book: &mut [u8]) -> io::Result<()> {
    heading(rt, "a whole AES key beside a name of 16 octets")?;
    begin_named(rt, book, 3, 5, b"~ 16 octets long")?;
    add(rt, book, 3, 5, b"0123456789abcdefghijklmnopqrstuv")?;
    finish(rt, book, 3, 5)?;
    ready(rt, book, 3, 5)?;
    name(rt, book, 3, 5)?;
    inventory(rt, book, 2)
}

pub fn names(rt: &impl Print) -> io::Result<()> {
    let mut book = [0u8; BOOK_OCTETS];
    shared(rt, &mut book)?;
    kept(rt, &mut book)?;
    beside(rt, &mut book)?;
    heading(rt, "spaces, and no name")?;
    begin_named(rt, &mut book, 3, 0, b"                ")?;
    begin(rt, &mut book, 3, 1)?;
    name(rt, &book, 3, 0)?;
    name(rt, &book, 3, 1)?;
    inventory(rt, &book, 3)?;
    inventory(rt, &book, 4)
}

pub fn bad_names(rt: &impl Print) -> io::Result<()> {
    let mut book = [0u8; BOOK_OCTETS];
    heading(rt, "bad names")?;
    fresh(rt, &book)?;
    begin_named(rt, &mut book, 1, 5, b"WARD\x1fFOUR\0\0\0\0\0\0\0")?;
    begin_named(rt, &mut book, 1, 5, b"WARD\x7fFOUR\0\0\0\0\0\0\0")?;
    begin_named(rt, &mut book, 1, 5, b"WARD\xc4FOUR\0\0\0\0\0\0\0")?;
    begin_named(rt, &mut book, 1, 5, b"WARD\0FOUR\0\0\0\0\0\0\0")?;
    begin_named(rt, &mut book, 1, 5, b"WARD FOUR\0\0\0\0\0\0W")?;
    begin_named(rt, &mut book, 1, 5, b"\0WARD FOUR\0\0\0\0\0\0")?;
    heading(rt, "names of 15, 17 and no octets")?;
    begin_named(rt, &mut book, 1, 5, b"WARD FOUR\0\0\0\0\0\0")?;
    begin_named(rt, &mut book, 1, 5, b"WARD FOUR\0\0\0\0\0\0\0\0")?;
    begin_named(rt, &mut book, 1, 5, b"")
}

// 2, 3, 17, 4 and 11, each with those after it.
pub fn orders_of_names(rt: &impl Print) -> io::Result<()> {
    let mut book = [0u8; BOOK_OCTETS];
    heading(rt, "a bad name, and what else")?;
    fresh(rt, &book)?;
    begin(rt, &mut book, 1, 5)?;
    begin_named(rt, &mut book, 0, 64, b"WARD\x7f")?;
    begin_named(rt, &mut book, 0, 64, b"WARD\x7fFOUR\0\0\0\0\0\0\0")?;
    begin_named(rt, &mut book, 1, 5, b"WARD\x7fFOUR\0\0\0\0\0\0\0")?;
    spoil(rt, &mut book, READY, 2)?;
    begin_named(rt, &mut book, 1, 5, b"WARD\x7f")?;
    begin_named(rt, &mut book, 1, 5, b"WARD\x7fFOUR\0\0\0\0\0\0\0")?;
    begin_named(rt, &mut book, 1, 5, b"WARD FOUR\0\0\0\0\0\0\0")?;
    inventory(rt, &book, 16)?;
    inventory(rt, &book, 15)
}
