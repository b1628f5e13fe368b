// Walks the key book: marked examples 8 and 9, each answer of each operation, names, each rule broken by itself, wrong
// lengths and numbers out of range. Each step is a line of asked.rt.
#![tactic(auto)]

use crate::asked::{
    add, begin, begin_named, erase, finish, fresh, heading, inventory, ready, seen, spoil,
};
use crate::broken::{broken_entries, broken_names, broken_ready};
use crate::names::{bad_names, names, orders_of_names};
use crate::ranges::{out_of_range, wrong_lengths};
use keybook::BOOK_OCTETS;
use keyentry::ENTRY_OCTETS;
use std::io;

mod asked;
mod broken;
mod names;
mod ranges;

const ENTRIES: u8 = (BOOK_OCTETS / ENTRY_OCTETS) as u8;

fn load(rt: &impl Print, book: &mut [u8], cipher: u8, id: u8, xs: &[u8]) -> io::Result<()> {
    begin(rt, book, cipher, id)?;
    add(rt, book, cipher, id, xs)?;
    finish(rt, book, cipher, id)
}

fn examples(rt: &impl Print) -> io::Result<()> {
    let mut book = [0u8; BOOK_OCTETS];
    heading(rt, "marked example 8")?;
    fresh(rt, &book)?;
    load(rt, &mut book, 1, 0, b"\x00\x00")?;
    load(rt, &mut book, 1, 1, b"\x80\x00")?;
    load(rt, &mut book, 1, 2, b"\x7f\xff")?;
    heading(rt, "marked example 9")?;
    load(rt, &mut book, 2, 0, b"\xab\xcd\xef\x01\x23\x45\x67\x89")?;
    load(rt, &mut book, 2, 1, b"\xab\xcd\xef\x01\x23\x45\x67\x88")?;
    ready(rt, &book, 2, 0)
}

fn half_key(rt: &impl Print, book: &mut [u8]) -> io::Result<()> {
    begin(rt, book, 3, 9)?;
    begin(rt, book, 3, 9)?;
    finish(rt, book, 3, 9)?;
    add(rt, book, 3, 9, b"0123456789abcdef")?;
    add(rt, book, 3, 9, b"0123456789abcdef0123456789abcdef0")?;
    add(rt, book, 3, 9, b"0123456789abcdef0")?;
    finish(rt, book, 3, 9)?;
    ready(rt, book, 3, 9)
}

fn whole_key(rt: &impl Print, book: &mut [u8]) -> io::Result<()> {
    add(rt, book, 3, 9, b"")?;
    add(rt, book, 3, 9, b"ghijklmnopqrstuv")?;
    ready(rt, book, 3, 9)?;
    finish(rt, book, 3, 9)?;
    ready(rt, book, 3, 9)?;
    add(rt, book, 3, 9, b"01")?;
    finish(rt, book, 3, 9)?;
    erase(rt, book, 3, 9)
}

fn no_entry(rt: &impl Print, book: &mut [u8]) -> io::Result<()> {
    add(rt, book, 3, 9, b"01")?;
    finish(rt, book, 3, 9)?;
    erase(rt, book, 3, 9)?;
    ready(rt, book, 3, 9)?;
    begin(rt, book, 3, 9)
}

// Begins entries for each key ID below n.
fn fill(rt: &impl Print, book: &mut [u8], n: u8) -> io::Result<()> {
    for id in 0..n {
        begin(rt, book, 1, id)?;
    }
    Ok(())
}

// All entries and one more; an entry that is erased is taken again.
fn full(rt: &impl Print) -> io::Result<()> {
    let mut book = [0u8; BOOK_OCTETS];
    heading(rt, "all entries in use")?;
    fresh(rt, &book)?;
    fill(rt, &mut book, ENTRIES)?;
    inventory(rt, &book, 15)?;
    begin(rt, &mut book, 1, ENTRIES)?;
    begin_named(rt, &mut book, 1, ENTRIES, b"WARD\x7fFOUR\0\0\0\0\0\0\0")?;
    begin(rt, &mut book, 1, 3)?;
    erase(rt, &mut book, 1, 3)?;
    begin(rt, &mut book, 1, ENTRIES)?;
    begin(rt, &mut book, 1, 3)
}

// Several refusals at once.
fn orders(rt: &impl Print) -> io::Result<()> {
    let mut book = [0u8; BOOK_OCTETS];
    heading(rt, "several at once")?;
    fresh(rt, &book)?;
    load(rt, &mut book, 1, 5, b"\x80")?;
    add(rt, &mut book, 0, 64, b"0123456789abcdef0123456789abcdef0")?;
    spoil(rt, &mut book, ENTRY_OCTETS, 4)?;
    begin(rt, &mut book, 0, 5)?;
    begin(rt, &mut book, 1, 5)?;
    erase(rt, &mut book, 1, 6)
}

fn main(rt: HostRuntime) -> io::Result<()> {
    examples(&rt)?;
    let mut book = [0u8; BOOK_OCTETS];
    heading(&rt, "half a key")?;
    fresh(&rt, &book)?;
    half_key(&rt, &mut book)?;
    heading(&rt, "the whole key")?;
    whole_key(&rt, &mut book)?;
    heading(&rt, "no entry")?;
    no_entry(&rt, &mut book)?;
    full(&rt)?;
    names(&rt)?;
    bad_names(&rt)?;
    wrong_lengths(&rt)?;
    out_of_range(&rt)?;
    broken_entries(&rt)?;
    broken_ready(&rt)?;
    broken_names(&rt)?;
    orders(&rt)?;
    orders_of_names(&rt)?;
    heading(&rt, "a refusal that changes the book")?;
    seen(&rt, &mut book)
}
