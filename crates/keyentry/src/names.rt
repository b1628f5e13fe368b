// A key's name: 16 octets, printable ASCII padded at its end with zeros.
ghost use Rattle.std.specs.Prelude.{◌≡◌};
ghost use Rattle.keyentry.specs.Name.{is_printable, text_octets, name_right};

use octets::all_zero;

pub const NAME_OCTETS: usize = 16;

fn is_printable(x: u8) -> bool
    ensures { result ≡ is_printable x }
{
    0x20 <= x && x <= 0x7E
}

// How many octets the text has, before the padding.
fn text_octets(name: &[u8; NAME_OCTETS]) -> usize
    ensures { result ≡ text_octets name.now }
{
    name.iter()
        .position(|x| !is_printable(*x))
        .unwrap_or(NAME_OCTETS)
}

// Whether the octets after the text are all zero.
pub fn name_right(name: &[u8; NAME_OCTETS]) -> bool
    ensures { result ≡ name_right name.now }
{
    let n = text_octets(name);
    all_zero(&name[n..])
}
