// The book of keys, for C.
ghost use Rattle.std.specs.Prelude.{◌≡◌};
ghost use Rattle.keybook.specs.History.{Begin, Add, Finish, Erase};
ghost use Rattle.nxdn.specs.Interface.{on_book};

#[unsafe(no_mangle)]
pub extern "C" fn nxdn_begin(book: &mut [u8], cipher: u8, id: u8, name: &[u8]) -> u8
    ensures { (result, book.new) ≡ on_book (Begin cipher id name.now) book.old }
{
    nxdn::book::nxdn_begin(book, cipher, id, name)
}

#[unsafe(no_mangle)]
pub extern "C" fn nxdn_add(book: &mut [u8], cipher: u8, id: u8, octets: &[u8]) -> u8
    ensures { (result, book.new) ≡ on_book (Add cipher id octets.now) book.old }
{
    nxdn::book::nxdn_add(book, cipher, id, octets)
}

#[unsafe(no_mangle)]
pub extern "C" fn nxdn_finish(book: &mut [u8], cipher: u8, id: u8) -> u8
    ensures { (result, book.new) ≡ on_book (Finish cipher id) book.old }
{
    nxdn::book::nxdn_finish(book, cipher, id)
}

#[unsafe(no_mangle)]
pub extern "C" fn nxdn_erase(book: &mut [u8], cipher: u8, id: u8) -> u8
    ensures { (result, book.new) ≡ on_book (Erase cipher id) book.old }
{
    nxdn::book::nxdn_erase(book, cipher, id)
}
