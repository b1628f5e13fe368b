// A frame of four words, each turned over where it stands. A word has as many octets as its width needs: seven at half rate, nine at full rate.
ghost use Rattle.std.specs.Prelude.{◌≡◌, ◌+◌, ◌*◌, ◌≤◌, ◌<◌, length};
ghost use Rattle.octets.specs.Bits.{bit};
ghost use Rattle.sizes.specs.Frame.{most_width, frame_octets, words, slot_bits, session_bits};
ghost use Rattle.voice.specs.Frame.{protect, word_turned};

use octets::turn;
use sizes::frame::{WORDS, word_octets};

// Word w, where the mask has it, turned by its bits of the slot, which stand in `stream` from bit `from` on.
fn turn_word(frame: &mut [u8], width: usize, mask: u8, w: usize, stream: &[u8], from: usize)
    requires { (width ≤ most_width) × (length frame.old ≡ frame_octets width) × (w < words) × (from < session_bits width) × (from + slot_bits width ≤ 8 * length stream.now) }
    ensures { frame.new ≡ word_turned width (λ n. bit stream.now (from + n)) mask w frame.old }
{
    if (mask >> w) % 2 != 1 {
        return;
    }
    let octets = word_octets(width);
    let a = octets * w;
    turn(&mut frame[a..a + octets], width, stream, from + width * w);
}

// The words of the mask turned by the slot's bits, which stand in `stream` from bit `from` on.
pub fn turn_frame(frame: &mut [u8], width: usize, mask: u8, stream: &[u8], from: usize)
    requires { (width ≤ most_width) × (length frame.old ≡ frame_octets width) × (from < session_bits width) × (from + slot_bits width ≤ 8 * length stream.now) }
    ensures { frame.new ≡ protect width (λ n. bit stream.now (from + n)) mask frame.old }
{
    for w in 0..WORDS {
        turn_word(frame, width, mask, w, stream, from);
    }
}
