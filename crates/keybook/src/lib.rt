// The key book: begin, add, finish and erase on a lent buffer of 16 entries, and the key of a ready entry. What a screen shows of it is in screen.rt.
// No operation requires anything of what it is lent: each refuses what it cannot use, by document 01's number.
#![tactic(auto)]

ghost use Rattle.std.specs.Prelude.{◌≡◌};
ghost use Rattle.answers.specs.Outcomes.{outcome, result_of, done_of};
ghost use Rattle.keyentry.specs.Entry.{key_in};
ghost use Rattle.keybook.specs.Operations.{no_key, not_ready, if_done, begin_of, add_of, finish_of, erase_of, load_of, ready_key_of};

use crate::book::{ENTRIES, entry, free, look, put, seek};
use answers::Answer;
use keyentry::names::name_right;
use keyentry::{ENTRY_OCTETS, READY, clear, complete, extend, in_range, key, write_new};
use sizes::cipher::KEY_ROOM;

mod book;
pub mod screen;

pub const BOOK_OCTETS: usize = ENTRIES * ENTRY_OCTETS;

// Takes the free entry nearest the start for a cipher and key ID, and names it.
pub fn begin(book: &mut [u8], cipher: u8, id: u8, name: &[u8]) -> Result<(), Answer>
    ensures { (result, book.new) ≡ done_of (begin_of book.old cipher id name.now) }
{
    let Some(name) = name.as_array() else {
        return Err(Answer::WrongLength);
    };
    let Some(whole) = book.as_array() else {
        return Err(Answer::WrongLength);
    };
    if !in_range(cipher, id) {
        return Err(Answer::OutOfRange);
    }
    if !name_right(name) {
        return Err(Answer::BadName);
    }
    if seek(whole, cipher, id)?.is_some() {
        return Err(Answer::Already);
    }
    let first = free(whole).ok_or(Answer::Full)?;
    let mut e = [0; ENTRY_OCTETS];
    write_new(&mut e, cipher, id, name);
    put(book, first, &e);
    Ok(())
}

// Appends key octets.
pub fn add(book: &mut [u8], cipher: u8, id: u8, xs: &[u8]) -> Result<(), Answer>
    ensures { (result, book.new) ≡ done_of (add_of book.old cipher id xs.now) }
{
    if xs.len() > KEY_ROOM {
        return Err(Answer::WrongLength);
    }
    let k = look(book, cipher, id)?;
    let mut e = *entry(book, k);
    extend(&mut e, xs)?;
    put(book, k, &e);
    Ok(())
}

// Marks an entry ready whose key is whole and allowed.
pub fn finish(book: &mut [u8], cipher: u8, id: u8) -> Result<(), Answer>
    ensures { (result, book.new) ≡ done_of (finish_of book.old cipher id) }
{
    let k = look(book, cipher, id)?;
    let mut e = *entry(book, k);
    complete(&mut e)?;
    put(book, k, &e);
    Ok(())
}

// Zeroes an entry, ready or not.
pub fn erase(book: &mut [u8], cipher: u8, id: u8) -> Result<(), Answer>
    ensures { (result, book.new) ≡ done_of (erase_of book.old cipher id) }
{
    let k = look(book, cipher, id)?;
    let mut e = *entry(book, k);
    clear(&mut e);
    put(book, k, &e);
    Ok(())
}

// What comes after begin, as a key is loaded.
fn fill(book: &mut [u8], cipher: u8, id: u8, key: &[u8]) -> Result<(), Answer>
    ensures { (result, book.new) ≡ done_of (if_done (add_of book.old cipher id key.now) (λ y. finish_of y cipher id)) }
{
    add(book, cipher, id, key)?;
    finish(book, cipher, id)
}

// A key at once: begun, added and finished, or nothing of it left.
pub fn load(book: &mut [u8], cipher: u8, id: u8, name: &[u8], key: &[u8]) -> Result<(), Answer>
    ensures { (result, book.new) ≡ done_of (load_of book.old cipher id name.now key.now) }
{
    begin(book, cipher, id, name)?;
    let filled = fill(book, cipher, id, key);
    let refused = filled.is_err();
    if refused {
        let _erased = erase(book, cipher, id);
    }
    filled
}

fn ready_entry(e: &[u8; ENTRY_OCTETS]) -> Result<[u8; KEY_ROOM], Answer>
    ensures { result ≡ result_of (outcome no_key (not_ready e.now) (key_in e.now)) }
{
    if e[READY] != 1 {
        return Err(Answer::NotReady);
    }
    Ok(*key(e))
}

// The key of a ready entry, with zeros past its length: what opens a call or a packet. A refusal hands out no key.
pub fn ready_key(book: &[u8], cipher: u8, id: u8) -> Result<[u8; KEY_ROOM], Answer>
    ensures { result ≡ result_of (ready_key_of book.now cipher id) }
{
    let k = look(book, cipher, id)?;
    ready_entry(entry(book, k))
}
