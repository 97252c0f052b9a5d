// Three blocks decrypted side by side: none waits for another, so the processor works on all of them.
ghost use Rattle.std.specs.Prelude.{◌≡◌};
ghost use Rattle.twofish.specs.Tabled.{tabled_decrypt};
ghost use Rattle.twofish.specs.Beside.{threefold};

use super::round::swap;
use super::{Block, Schedule, Three};

impl Three {
    // f of each.
    fn map<F: Fn(Block) -> Block>(self, f: F) -> Three
        requires { F.IsAlwaysCallable f }
        ensures first { F.post f self.x result.x }
        ensures second { F.post f self.y result.y }
        ensures third { F.post f self.z result.z }
    {
        Three {
            x: f(self.x),
            y: f(self.y),
            z: f(self.z),
        }
    }
}

impl Schedule {
    // Two rounds a turn, as for one block.
    pub fn decrypt_three(&self, t: Three) -> Three
        ensures { result ≡ threefold (tabled_decrypt self.now) t }
    {
        let mut u = t.map(|x| swap(self.whiten(4, x)));
        for i in (0..8).rev() {
            let v = u.map(|x| self.unround(2 * i + 1, x));
            u = v.map(|x| self.unround(2 * i, x));
        }
        u.map(|x| self.whiten(0, x))
    }
}
