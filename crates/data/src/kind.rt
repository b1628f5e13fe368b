// The message kinds and the numbers that belong to each.
// Kept: a kind is a number, as the C interface gives it and as a packet in lent octets holds it, bad ones too.
ghost use Rattle.std.specs.Prelude.{◌≡◌};
ghost use Rattle.data.specs.Kinds.{by_kind, is_kind, message_octets, protected_octets};

pub const DCALL: u8 = 1;

pub const SDCALL_INBOUND: u8 = 2;

pub const SDCALL_OUTBOUND: u8 = 3;

pub const FACCH1: u8 = 4;

// The octets before those that are protected.
pub const HEAD_OCTETS: usize = 2;

// The most protected octets of a message: a DCALL's.
pub const MOST_PROTECTED: usize = 20;

#[tactic(auto, unfolding(crate::specs::Kinds::is_kind))]
pub fn is_kind(kind: u8) -> bool
    ensures { result ≡ is_kind kind }
{
    DCALL <= kind && kind <= FACCH1
}

// What belongs to a kind, or 0 where there is no such kind.
fn by_kind(kind: u8, dcall: usize, inbound: usize, outbound: usize, facch1: usize) -> usize
    ensures { result ≡ by_kind kind dcall inbound outbound facch1 }
{
    match kind {
        DCALL => dcall,
        SDCALL_INBOUND => inbound,
        SDCALL_OUTBOUND => outbound,
        FACCH1 => facch1,
        _ => 0,
    }
}

pub fn message_octets(kind: u8) -> usize
    ensures { result ≡ message_octets kind }
{
    by_kind(kind, 22, 16, 18, 10)
}

pub fn protected_octets(kind: u8) -> usize
    ensures { result ≡ protected_octets kind }
{
    by_kind(kind, MOST_PROTECTED, 14, 14, 8)
}
