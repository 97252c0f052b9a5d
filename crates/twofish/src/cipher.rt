// The cipher on four words.
ghost use Rattle.std.specs.Prelude.{◌≡◌};
ghost use Rattle.twofish.specs.Tabled.{tabled_encrypt, tabled_decrypt};

use super::round::swap;
use super::{Block, Schedule};

impl Schedule {
    // Both take two rounds a turn: the words then stay in registers. There and back are two definitions (Cipher.antt), neither an
    // instance of the other.
    pub fn encrypt(&self, x: Block) -> Block
        ensures { result ≡ tabled_encrypt self.now x }
    {
        let mut y = self.whiten(0, x);
        for i in 0..8 {
            let z = self.round(2 * i, y);
            y = self.round(2 * i + 1, z);
        }
        self.whiten(4, swap(y))
    }

    pub fn decrypt(&self, x: Block) -> Block
        ensures { result ≡ tabled_decrypt self.now x }
    {
        let mut y = swap(self.whiten(4, x));
        for i in (0..8).rev() {
            let z = self.unround(2 * i + 1, y);
            y = self.unround(2 * i, z);
        }
        self.whiten(0, y)
    }
}
