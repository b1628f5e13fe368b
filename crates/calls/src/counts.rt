// How much was kept: what became of the words that a receiving call was told of, so far.
ghost use Rattle.std.specs.Prelude.{◌≡◌, ◌<◌};
ghost use Rattle.octets.specs.Tests.{every};
ghost use Rattle.sizes.specs.Frame.{words, most_words};
ghost use Rattle.calls.specs.Counts.{words_in, counts_of, plus, total, lost_words, arrived_words, count_tests};

use sizes::cipher::SUPERFRAME_SLOTS;
use sizes::frame::{MOST_WORDS, WORDS};

const SLOT_WORDS: u32 = WORDS as u32;

// Zeros for a sender and for no call.
#[derive(Clone, Copy, Default, PartialEq, Eq)]
pub struct Counts {
    pub opened: u32,
    pub held: u32,
    pub replaced: u32,
    pub lost: u32,
}

// All words, of any counts.
pub fn total(counts: Counts) -> u64
    ensures { result ≡ total counts }
{
    u64::from(counts.opened)
        + u64::from(counts.held)
        + u64::from(counts.replaced)
        + u64::from(counts.lost)
}

// ---- the words of a slot

// How many words the mask has.
fn words_in(mask: u8) -> u32
    ensures { result ≡ words_in mask }
{
    (mask % 16).count_ones()
}

pub fn lost_words() -> Counts
    ensures { result ≡ lost_words }
{
    Counts {
        lost: SLOT_WORDS,
        ..Counts::default()
    }
}

// A word that gave way to signalling is replaced, also where the session is held.
pub fn arrived_words(mask: u8, known: bool) -> Counts
    ensures { result ≡ arrived_words mask known }
{
    let inside = words_in(mask);
    let replaced = SLOT_WORDS - inside;
    if known {
        return Counts {
            opened: inside,
            replaced,
            ..Counts::default()
        };
    }
    Counts {
        held: inside,
        replaced,
        ..Counts::default()
    }
}

pub fn plus(counts: Counts, slot: Counts) -> Counts
    requires { (total counts < most_words) × (total slot ≡ words) }
    ensures { result ≡ plus counts slot }
{
    Counts {
        opened: counts.opened + slot.opened,
        held: counts.held + slot.held,
        replaced: counts.replaced + slot.replaced,
        lost: counts.lost + slot.lost,
    }
}

// ---- the rules

// Whether a receiver's counts are right, where its vectors are always known, or where none was ever known.
pub(crate) fn receiver_counts_right(always: bool, never: bool, position: u8, counts: Counts) -> bool
    ensures { result ≡ every (count_tests always never position counts) }
{
    let all = total(counts);
    let slots = all / u64::from(SLOT_WORDS);
    all <= u64::from(MOST_WORDS)
        && all % u64::from(SLOT_WORDS) == 0
        && counts.lost % SLOT_WORDS == 0
        && slots % u64::from(SUPERFRAME_SLOTS) == u64::from(position % SUPERFRAME_SLOTS)
        && (!always || counts.held == 0)
        && (!never || counts.opened == 0)
}
