// A call in 71 lent octets, with the vector that it keeps for its next session.
ghost use Rattle.std.specs.Prelude.{◌≡◌, ◌++◌, ◌+◌, length};
ghost use Rattle.sizes.specs.Ciphers.{key_room, vector_octets};
ghost use Rattle.held.specs.Call.{call_octets, counts_laid, octets_of, terms_in, counts_in, hearing_in};

use crate::number::{four_at, write_four};
use calls::call::{Call, Terms};
use calls::counts::Counts;
use hearing::Hearing;
use sizes::cipher::{KEY_ROOM, VECTOR_OCTETS};

const END: usize = 0;

const CIPHER: usize = 1;

const RATE: usize = 2;

const STRICTNESS: usize = 3;

const POSITION: usize = 4;

const KNOWN: usize = 5;

const KEPT: usize = 6;

const VECTOR: usize = 7;

const NEXT: usize = VECTOR + VECTOR_OCTETS;

const KEY: usize = NEXT + VECTOR_OCTETS;

const COUNTS: usize = KEY + KEY_ROOM;

pub const CALL_OCTETS: usize = COUNTS + 16;

// ---- read

fn terms_in(octets: &[u8; CALL_OCTETS]) -> Terms
    ensures { result ≡ terms_in octets.now }
{
    let mut key = [0; KEY_ROOM];
    key.copy_from_slice(&octets[KEY..COUNTS]);
    Terms {
        cipher: octets[CIPHER],
        key,
        rate: octets[RATE],
        strictness: octets[STRICTNESS],
    }
}

fn counts_in(octets: &[u8; CALL_OCTETS]) -> Counts
    ensures { result ≡ counts_in octets.now }
{
    Counts {
        opened: four_at(octets, COUNTS),
        held: four_at(octets, COUNTS + 4),
        replaced: four_at(octets, COUNTS + 8),
        lost: four_at(octets, COUNTS + 12),
    }
}

// The call that octets hold.
pub fn read(octets: &[u8; CALL_OCTETS]) -> Hearing
    ensures { result ≡ hearing_in octets.now }
{
    let mut vector = [0; VECTOR_OCTETS];
    vector.copy_from_slice(&octets[VECTOR..NEXT]);
    let mut next = [0; VECTOR_OCTETS];
    next.copy_from_slice(&octets[NEXT..KEY]);
    Hearing {
        call: Call {
            end: octets[END],
            terms: terms_in(octets),
            position: octets[POSITION],
            known: octets[KNOWN],
            vector,
            counts: counts_in(octets),
        },
        kept: octets[KEPT],
        next,
    }
}

// ---- written

fn write_counts(part: &mut [u8], counts: Counts)
    requires { length part.old ≡ 16 }
    ensures { part.new ≡ counts_laid counts }
{
    write_four(&mut part[0..4], counts.opened);
    write_four(&mut part[4..8], counts.held);
    write_four(&mut part[8..12], counts.replaced);
    write_four(&mut part[12..16], counts.lost);
}

// A call into octets.
pub fn write(octets: &mut [u8], hearing: Hearing)
    requires { length octets.old ≡ call_octets }
    ensures { octets.new ≡ octets_of hearing }
{
    let call = hearing.call;
    octets[END] = call.end;
    octets[CIPHER] = call.terms.cipher;
    octets[RATE] = call.terms.rate;
    octets[STRICTNESS] = call.terms.strictness;
    octets[POSITION] = call.position;
    octets[KNOWN] = call.known;
    octets[KEPT] = hearing.kept;
    octets[VECTOR..NEXT].copy_from_slice(&call.vector);
    octets[NEXT..KEY].copy_from_slice(&hearing.next);
    octets[KEY..COUNTS].copy_from_slice(&call.terms.key);
    write_counts(&mut octets[COUNTS..CALL_OCTETS], call.counts);
}
