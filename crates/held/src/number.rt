// A number in lent octets, the most significant octet first.
// Kept: two functions for each width, since std's from_be_bytes and to_be_bytes are each type's own: a trait over both with two impls is more text.
ghost use Rattle.std.specs.Prelude.{◌≡◌, ◌+◌, ◌≤◌, length};
ghost use Rattle.held.specs.Number.{two_of, four_of, two_at, four_at};

pub(crate) fn two_at(octets: &[u8], i: usize) -> u16
    requires { i + 2 ≤ length octets.now }
    ensures { result ≡ two_at octets.now i }
{
    u16::from_be_bytes([octets[i], octets[i + 1]])
}

pub(crate) fn four_at(octets: &[u8], i: usize) -> u32
    requires { i + 4 ≤ length octets.now }
    ensures { result ≡ four_at octets.now i }
{
    u32::from_be_bytes([octets[i], octets[i + 1], octets[i + 2], octets[i + 3]])
}

pub(crate) fn write_two(part: &mut [u8], x: u16)
    requires { length part.old ≡ 2 }
    ensures { part.new ≡ two_of x }
{
    part.copy_from_slice(&x.to_be_bytes());
}

pub(crate) fn write_four(part: &mut [u8], count: u32)
    requires { length part.old ≡ 4 }
    ensures { part.new ≡ four_of count }
{
    part.copy_from_slice(&count.to_be_bytes());
}
