// What a screen shows of a book and of a call, for C.
ghost use Rattle.std.specs.Prelude.{◌≡◌};
ghost use Rattle.nxdn.specs.Operations.{Name, Inventory};
ghost use Rattle.nxdn.specs.Interface.{on_screen, Show, on_look};

#[unsafe(no_mangle)]
pub extern "C" fn nxdn_name(book: &[u8], cipher: u8, id: u8, name: &mut [u8]) -> u8
    ensures { (result, name.new) ≡ on_screen book.now (Name cipher id) name.old }
{
    nxdn::screen::nxdn_name(book, cipher, id, name)
}

#[unsafe(no_mangle)]
pub extern "C" fn nxdn_inventory(book: &[u8], entry: usize, shown: &mut [u8]) -> u8
    ensures { (result, shown.new) ≡ on_screen book.now (Inventory entry) shown.old }
{
    nxdn::screen::nxdn_inventory(book, entry, shown)
}

#[unsafe(no_mangle)]
pub extern "C" fn nxdn_show(call: &[u8], shown: &mut [u8]) -> u8
    ensures { (result, shown.new) ≡ on_look Show call.now shown.old }
{
    nxdn::screen::nxdn_show(call, shown)
}
