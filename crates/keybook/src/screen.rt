// What a technician's screen shows of a book, without any key octet: the name of an entry, and the inventory.
ghost use Rattle.std.specs.Prelude.{◌≡◌};
ghost use Rattle.answers.specs.Outcomes.{result_of};
ghost use Rattle.keybook.specs.Screen.{name_of, shown, inventory_of};

use crate::BOOK_OCTETS;
use crate::book::{ENTRIES, entry, good_book, look};
use answers::Answer;
use keyentry::names::NAME_OCTETS;
use keyentry::{CIPHER, COUNT, ENTRY_OCTETS, ID, READY, name_in};

// The name of an entry, ready or not.
pub fn name(book: &[u8], cipher: u8, id: u8) -> Result<[u8; NAME_OCTETS], Answer>
    ensures { result ≡ result_of (name_of book.now cipher id) }
{
    let k = look(book, cipher, id)?;
    Ok(*name_in(entry(book, k)))
}

// ---- the inventory

// An entry without its key octets. A free one is all zeros, and its cipher type says so.
// Kept: numbers, as the C interface shows them (nxdn_inventory).
#[derive(Clone, Copy)]
pub struct Shown {
    pub cipher: u8,
    pub id: u8,
    pub loaded: u8,
    pub ready: bool,
    pub name: [u8; NAME_OCTETS],
}

fn show(e: &[u8; ENTRY_OCTETS]) -> Shown
    ensures { result ≡ shown e.now }
{
    Shown {
        cipher: e[CIPHER],
        id: e[ID],
        loaded: e[COUNT],
        ready: e[READY] == 1,
        name: *name_in(e),
    }
}

// Entry k of 16.
pub fn inventory(book: &[u8], k: usize) -> Result<Shown, Answer>
    ensures { result ≡ result_of (inventory_of book.now k) }
{
    let Some(whole) = book.as_array::<BOOK_OCTETS>() else {
        return Err(Answer::WrongLength);
    };
    if k >= ENTRIES {
        return Err(Answer::OutOfRange);
    }
    if !good_book(whole) {
        return Err(Answer::Bad);
    }
    Ok(show(entry(whole, k)))
}
