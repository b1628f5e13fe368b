// The operations of the book, each written as a line: what was asked and the number answered, and where a refusal changed the book. A line for a new book,
// and for an octet that is set in it, tells the rest, so that another program can follow: bench/model.py book.
use answers::Answer;
use keybook::BOOK_OCTETS;
use keybook::screen::Shown;
use keyentry::names::NAME_OCTETS;
use std::io;

// Room for a book and one octet more.
const ROOM: usize = BOOK_OCTETS + 1;

const FREE: Shown = Shown {
    cipher: 0,
    id: 0,
    loaded: 0,
    ready: false,
    name: [0; NAME_OCTETS],
};

// ---- what is written

fn text(rt: &impl Print, t: &str) -> io::Result<()> {
    rt.print(t)
}

fn number(rt: &impl Print, n: u64) -> io::Result<()> {
    rt.print(n)
}

fn octet(rt: &impl Print, x: u8) -> io::Result<()> {
    print!(rt; "{x:02x}")
}

fn octets(rt: &impl Print, xs: &[u8]) -> io::Result<()> {
    for x in xs {
        octet(rt, *x)?;
    }
    Ok(())
}

fn subject(rt: &impl Print, what: &str, cipher: u8, id: u8) -> io::Result<()> {
    text(rt, what)?;
    text(rt, " ")?;
    number(rt, u64::from(cipher))?;
    text(rt, " ")?;
    number(rt, u64::from(id))
}

// What is walked.
pub fn heading(rt: &impl Print, what: &str) -> io::Result<()> {
    text(rt, "# ")?;
    text(rt, what)?;
    text(rt, "\n")
}

// ---- the book

// A book that is new: all zeros.
pub fn fresh(rt: &impl Print, book: &[u8]) -> io::Result<()> {
    text(rt, "book of ")?;
    number(rt, book.len() as u64)?;
    text(rt, " octets\n")
}

pub fn spoil(rt: &impl Print, book: &mut [u8], place: usize, value: u8) -> io::Result<()> {
    text(rt, "octet ")?;
    number(rt, place as u64)?;
    text(rt, " ")?;
    octet(rt, value)?;
    text(rt, "\n")?;
    if place < book.len() {
        book[place] = value;
    }
    Ok(())
}

// ---- whether a refusal changed the book

// A book's octets, and zeros after them.
fn copied(book: &[u8]) -> [u8; ROOM] {
    let mut before = [0u8; ROOM];
    for (to, from) in before.iter_mut().zip(book) {
        *to = *from;
    }
    before
}

fn answered(rt: &impl Print, answer: Answer, book: &[u8], before: [u8; ROOM]) -> io::Result<()> {
    text(rt, ": ")?;
    number(rt, u64::from(answer.number()))?;
    if answer != Answer::Done && copied(book) != before {
        text(rt, " changed")?;
    }
    text(rt, "\n")
}

// A refusal that changes the book is seen: one octet is set behind its back.
pub fn seen(rt: &impl Print, book: &mut [u8]) -> io::Result<()> {
    let before = copied(book);
    spoil(rt, book, 0, 1)?;
    text(rt, "seen")?;
    answered(rt, Answer::Bad, book, before)
}

// ---- the operations

fn begun(rt: &impl Print, book: &mut [u8], cipher: u8, id: u8, name: &[u8]) -> io::Result<()> {
    let before = copied(book);
    let a = Answer::from(keybook::begin(book, cipher, id, name));
    answered(rt, a, book, before)
}

// Without a name.
pub fn begin(rt: &impl Print, book: &mut [u8], cipher: u8, id: u8) -> io::Result<()> {
    subject(rt, "begin", cipher, id)?;
    let name = [0; NAME_OCTETS];
    begun(rt, book, cipher, id, &name)
}

// The name's octets stand after the key ID.
pub fn begin_named(
    rt: &impl Print,
    book: &mut [u8],
    cipher: u8,
    id: u8,
    name: &[u8],
) -> io::Result<()> {
    subject(rt, "begin", cipher, id)?;
    text(rt, " ")?;
    octets(rt, name)?;
    begun(rt, book, cipher, id, name)
}

pub fn add(rt: &impl Print, book: &mut [u8], cipher: u8, id: u8, xs: &[u8]) -> io::Result<()> {
    subject(rt, "add", cipher, id)?;
    text(rt, " ")?;
    octets(rt, xs)?;
    let before = copied(book);
    let a = Answer::from(keybook::add(book, cipher, id, xs));
    answered(rt, a, book, before)
}

pub fn finish(rt: &impl Print, book: &mut [u8], cipher: u8, id: u8) -> io::Result<()> {
    subject(rt, "finish", cipher, id)?;
    let before = copied(book);
    let a = Answer::from(keybook::finish(book, cipher, id));
    answered(rt, a, book, before)
}

pub fn erase(rt: &impl Print, book: &mut [u8], cipher: u8, id: u8) -> io::Result<()> {
    subject(rt, "erase", cipher, id)?;
    let before = copied(book);
    let a = Answer::from(keybook::erase(book, cipher, id));
    answered(rt, a, book, before)
}

// An answer, and octets that are handed out: with a refusal zeros.
fn handed<const N: usize>(rt: &impl Print, outcome: Result<[u8; N], Answer>) -> io::Result<()> {
    let (answer, xs) = match outcome {
        Ok(xs) => (Answer::Done, xs),
        Err(refusal) => (refusal, [0; N]),
    };
    text(rt, ": ")?;
    number(rt, u64::from(answer.number()))?;
    text(rt, " ")?;
    octets(rt, &xs)?;
    text(rt, "\n")
}

pub fn ready(rt: &impl Print, book: &[u8], cipher: u8, id: u8) -> io::Result<()> {
    subject(rt, "ready", cipher, id)?;
    handed(rt, keybook::ready_key(book, cipher, id))
}

pub fn name(rt: &impl Print, book: &[u8], cipher: u8, id: u8) -> io::Result<()> {
    subject(rt, "name", cipher, id)?;
    handed(rt, keybook::screen::name(book, cipher, id))
}

fn field(rt: &impl Print, n: u8) -> io::Result<()> {
    number(rt, u64::from(n))?;
    text(rt, " ")
}

// Its cipher type, key ID, octets loaded, whether it is ready, and its name.
fn shown(rt: &impl Print, e: Shown) -> io::Result<()> {
    field(rt, e.cipher)?;
    field(rt, e.id)?;
    field(rt, e.loaded)?;
    field(rt, u8::from(e.ready))?;
    octets(rt, &e.name)
}

// With a refusal what a free entry shows.
pub fn inventory(rt: &impl Print, book: &[u8], k: usize) -> io::Result<()> {
    text(rt, "inventory ")?;
    number(rt, k as u64)?;
    let (answer, e) = match keybook::screen::inventory(book, k) {
        Ok(e) => (Answer::Done, e),
        Err(refusal) => (refusal, FREE),
    };
    text(rt, ": ")?;
    field(rt, answer.number())?;
    shown(rt, e)?;
    text(rt, "\n")
}

// Every operation that names a cipher type and a key ID.
pub fn every(rt: &impl Print, book: &mut [u8], cipher: u8, id: u8) -> io::Result<()> {
    begin(rt, book, cipher, id)?;
    add(rt, book, cipher, id, b"\x01")?;
    finish(rt, book, cipher, id)?;
    erase(rt, book, cipher, id)?;
    ready(rt, book, cipher, id)?;
    name(rt, book, cipher, id)
}
