// Three blocks in place, decrypted side by side.
ghost use Rattle.std.specs.Prelude.{◌≡◌, length};
ghost use Rattle.twofish.specs.Tabled.{tabled_decrypt};
ghost use Rattle.chain.specs.Blocks.{texts_of, three_of, DecryptedThree};

use super::Chaining;
use super::block::chained;
use twofish::blocks::{bytes, load};
use twofish::{Block, Three};

fn load_three(b: &[u8]) -> Three
    requires { length b.now ≡ 48 }
    ensures { result ≡ three_of b.now }
{
    Three {
        x: load(&b[0..16]),
        y: load(&b[16..32]),
        z: load(&b[32..48]),
    }
}

impl Chaining<'_> {
    // The texts of three cipher blocks, each chained to the one before.
    fn texts(&self, prev: Block, t: Three) -> Three
        ensures { result ≡ texts_of self.now.mode (tabled_decrypt self.now.schedule.now) prev t }
    {
        let u = self.schedule.decrypt_three(t);
        let x = chained(self.mode, prev, u.x);
        let y = chained(self.mode, t.x, u.y);
        let z = chained(self.mode, t.y, u.z);
        Three { x, y, z }
    }

    // Hands on the last cipher block.
    pub fn decrypt_three(&self, prev: Block, b: &mut [u8]) -> Block
        requires { length b.old ≡ 48 }
        ensures { DecryptedThree self.now.mode (tabled_decrypt self.now.schedule.now) prev b.old b.new result }
    {
        let t = load_three(b);
        let u = self.texts(prev, t);
        b[0..16].copy_from_slice(&bytes(u.x));
        b[16..32].copy_from_slice(&bytes(u.y));
        b[32..48].copy_from_slice(&bytes(u.z));
        t.z
    }
}
