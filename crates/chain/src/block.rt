// One block in place, in either mode.
ghost use Rattle.std.specs.Prelude.{◌≡◌, length};
ghost use Rattle.twofish.specs.Tabled.{tabled_encrypt, tabled_decrypt};
ghost use Rattle.chain.specs.Blocks.{xor_block, chained as chained_of, EncryptedBlock, DecryptedBlock};

use super::{Chaining, Mode};
use twofish::Block;
use twofish::blocks::{bytes, load};

fn xor(x: Block, y: Block) -> Block
    ensures { result ≡ xor_block x y }
{
    Block {
        a: x.a ^ y.a,
        b: x.b ^ y.b,
        c: x.c ^ y.c,
        d: x.d ^ y.d,
    }
}

// A block with the cipher block before it, as the mode has it: a text that is to be encrypted, or a block that was decrypted.
pub fn chained(mode: Mode, prev: Block, x: Block) -> Block
    ensures { result ≡ chained_of mode prev x }
{
    match mode {
        Mode::Ecb => x,
        Mode::Cbc => xor(x, prev),
    }
}

impl Chaining<'_> {
    // Both hand on the cipher block, which the next block is chained to. There and back are two definitions, neither an instance of
    // the other.
    pub fn encrypt_block(&self, prev: Block, b: &mut [u8]) -> Block
        requires { length b.old ≡ 16 }
        ensures { EncryptedBlock self.now.mode (tabled_encrypt self.now.schedule.now) prev b.old b.new result }
    {
        let x = self.schedule.encrypt(chained(self.mode, prev, load(b)));
        b.copy_from_slice(&bytes(x));
        x
    }

    pub fn decrypt_block(&self, prev: Block, b: &mut [u8]) -> Block
        requires { length b.old ≡ 16 }
        ensures { DecryptedBlock self.now.mode (tabled_decrypt self.now.schedule.now) prev b.old b.new result }
    {
        let x = load(b);
        let y = chained(self.mode, prev, self.schedule.decrypt(x));
        b.copy_from_slice(&bytes(y));
        x
    }
}
