// The book of keys, for C.
ghost use Rattle.std.specs.Prelude.{◌≡◌};
ghost use Rattle.keybook.specs.History.{Begin, Add, Finish, Erase};
ghost use Rattle.nxdn.specs.Interface.{on_book};

use answers::Answer;

pub fn nxdn_begin(book: &mut [u8], cipher: u8, id: u8, name: &[u8]) -> u8
    ensures { (result, book.new) ≡ on_book (Begin cipher id name.now) book.old }
{
    Answer::from(keybook::begin(book, cipher, id, name)).number()
}

pub fn nxdn_add(book: &mut [u8], cipher: u8, id: u8, octets: &[u8]) -> u8
    ensures { (result, book.new) ≡ on_book (Add cipher id octets.now) book.old }
{
    Answer::from(keybook::add(book, cipher, id, octets)).number()
}

pub fn nxdn_finish(book: &mut [u8], cipher: u8, id: u8) -> u8
    ensures { (result, book.new) ≡ on_book (Finish cipher id) book.old }
{
    Answer::from(keybook::finish(book, cipher, id)).number()
}

pub fn nxdn_erase(book: &mut [u8], cipher: u8, id: u8) -> u8
    ensures { (result, book.new) ≡ on_book (Erase cipher id) book.old }
{
    Answer::from(keybook::erase(book, cipher, id)).number()
}
