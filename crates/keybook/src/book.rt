// The entries of a book: the rules of all of them together, and which one is for a cipher and key ID.
ghost use Rattle.std.specs.Prelude.{◌≡◌, ◌<◌, length};
ghost use Rattle.std.specs.Simd.{first_chunks};
ghost use Rattle.keyentry.specs.Entry.{entry_octets};
ghost use Rattle.keybook.specs.Book.{entries, book_octets, entry_of, with_entry, apart, good_book, find_entry, free_entry};
ghost use Rattle.keybook.specs.Lookup.{place, spotted, lookup, seeking};

use crate::BOOK_OCTETS;
use answers::Answer;
use keyentry::{CIPHER, ENTRY_OCTETS, ID, entry_right, in_range, is_for};

pub const ENTRIES: usize = 16;

fn entries(book: &[u8; BOOK_OCTETS]) -> &[[u8; ENTRY_OCTETS]]
    ensures { (result.now ≡ first_chunks entry_octets entries book.now) × (length result.now ≡ entries) }
{
    book.as_chunks().0
}

pub fn entry(book: &[u8], k: usize) -> &[u8; ENTRY_OCTETS]
    requires { (length book.now ≡ book_octets) × (k < entries) }
    ensures { result.now ≡ entry_of book.now k }
{
    let a = k * ENTRY_OCTETS;
    book[a..a + ENTRY_OCTETS].as_array().unwrap()
}

// Kept: the place of an entry is counted out. Tried, and the proof didn't close: an array lent of a part of the book by `as_mut_array`, since the check doesn't
// learn then what the book ends as.
pub fn put(book: &mut [u8], k: usize, e: &[u8; ENTRY_OCTETS])
    requires { (length book.old ≡ book_octets) × (k < entries) }
    ensures { book.new ≡ with_entry book.old k e.now }
{
    let a = k * ENTRY_OCTETS;
    book[a..a + ENTRY_OCTETS].copy_from_slice(e);
}

// ---- finding an entry

// The number of the entry for a cipher and key ID.
fn find(book: &[u8; BOOK_OCTETS], cipher: u8, id: u8) -> Option<usize>
    ensures { result ≡ place (find_entry book.now cipher id) }
{
    entries(book).iter().position(|e| is_for(e, cipher, id))
}

// The number of the free entry nearest the start.
pub fn free(book: &[u8; BOOK_OCTETS]) -> Option<usize>
    ensures { result ≡ place (free_entry book.now) }
{
    entries(book).iter().position(|e| e[CIPHER] == 0)
}

// ---- the rules

// Whether an entry is free, or the first for its cipher and key ID.
fn is_apart(book: &[u8; BOOK_OCTETS], k: usize) -> bool
    requires { k < entries }
    ensures { result ≡ apart book.now k }
{
    let e = entry(book, k);
    e[CIPHER] == 0 || find(book, e[CIPHER], e[ID]) == Some(k)
}

pub fn good_book(book: &[u8]) -> bool
    ensures { result ≡ good_book book.now }
{
    let Some(whole) = book.as_array::<BOOK_OCTETS>() else {
        return false;
    };
    for k in 0..ENTRIES {
        if !entry_right(entry(whole, k)) {
            return false;
        }
        if !is_apart(whole, k) {
            return false;
        }
    }
    true
}

// ---- what every operation asks first

// The number of the entry for a cipher and key ID, or why that cannot be asked of this book. The numbers' range was asked.
pub fn seek(book: &[u8], cipher: u8, id: u8) -> Result<Option<usize>, Answer>
    ensures { result ≡ seeking book.now cipher id }
{
    let Some(whole) = book.as_array() else {
        return Err(Answer::Bad);
    };
    if !good_book(whole) {
        return Err(Answer::Bad);
    }
    Ok(find(whole, cipher, id))
}

pub fn look(book: &[u8], cipher: u8, id: u8) -> Result<usize, Answer>
    ensures { result ≡ spotted (lookup book.now cipher id) }
{
    let Some(book) = book.as_array::<BOOK_OCTETS>() else {
        return Err(Answer::WrongLength);
    };
    if !in_range(cipher, id) {
        return Err(Answer::OutOfRange);
    }
    seek(book, cipher, id)?.ok_or(Answer::NoEntry)
}
