// Books of other lengths, and numbers out of range.
use crate::asked::{begin_named, every, fresh, heading, inventory};
use keybook::BOOK_OCTETS;
use std::io;

fn wrong_length(rt: &impl Print, book: &mut [u8]) -> io::Result<()> {
    fresh(rt, book)?;
    every(rt, book, 1, 5)?;
    every(rt, book, 0, 64)?;
    begin_named(rt, book, 1, 5, b"WARD\x7fFOUR\0\0\0\0\0\0\0")?;
    inventory(rt, book, 16)
}

pub fn wrong_lengths(rt: &impl Print) -> io::Result<()> {
    heading(rt, "wrong lengths")?;
    let mut short = [0u8; BOOK_OCTETS - 1];
    wrong_length(rt, &mut short)?;
    let mut long = [0u8; BOOK_OCTETS + 1];
    wrong_length(rt, &mut long)?;
    let mut none = [0u8; 0];
    wrong_length(rt, &mut none)
}

pub fn out_of_range(rt: &impl Print) -> io::Result<()> {
    let mut book = [0u8; BOOK_OCTETS];
    heading(rt, "numbers out of range")?;
    fresh(rt, &book)?;
    every(rt, &mut book, 0, 5)?;
    every(rt, &mut book, 4, 5)?;
    every(rt, &mut book, 255, 5)?;
    every(rt, &mut book, 1, 64)?;
    every(rt, &mut book, 1, 255)?;
    inventory(rt, &book, 15)?;
    inventory(rt, &book, 16)
}
