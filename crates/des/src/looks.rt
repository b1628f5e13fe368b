// Where the boxes look, by the same rounds as a block's, so that a set of known answers can tell which selection entries it uses. No block needs it.
ghost use Rattle.std.specs.Prelude.{◌≡◌, ◌<◌};
ghost use Rattle.des.specs.Des.{looks_at};
ghost use Rattle.des.specs.Prepared.{key_of};

use crate::{PreparedKey, box_place, half};

impl PreparedKey {
    // Where box i looks in round n of a block, both counted from 0.
    pub fn looks_at(&self, block: &[u8; 8], n: usize, i: usize) -> usize
        requires { (n < 16) × (i < 8) }
        ensures { (result ≡ looks_at (key_of self.now.octets) block.now n i) × (result < 512) }
    {
        let mut bits = [0u8; 64];
        self.initial(block, &mut bits);
        self.first_rounds(&mut bits, n);
        let right = half(&bits, 0);
        let input = self.box_input(&right, n);
        box_place(&input, i)
    }
}
