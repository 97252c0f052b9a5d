// All blocks of a memory in place, the first one chained to `first`; bytes past the last whole block stay. Blocks are lent by
// their range: of a memory that std lends in chunks nothing is known afterwards. There and
// back are two definitions, and only back counts.
ghost use Rattle.std.specs.Prelude.{◌≡◌};
ghost use Rattle.twofish.specs.Twofish.{block_bytes};
ghost use Rattle.twofish.specs.Tabled.{tabled_encrypt, tabled_decrypt};
ghost use Rattle.chain.specs.Memory.{Handed};
ghost use Rattle.chain.specs.Blocks.{on_bytes, mode_e, mode_d, encrypted_blocks, decrypted_blocks};

use super::Chaining;
use twofish::Block;

impl Chaining<'_> {
    pub fn encrypt(&self, first: Block, work: &mut [u8])
        ensures { work.new ≡ encrypted_blocks (mode_e self.now.mode (on_bytes (tabled_encrypt self.now.schedule.now)))
            (block_bytes first) work.old }
    {
        let mut prev = first;
        for j in 0..work.len() / 16 {
            let i = 16 * j;
            prev = self.encrypt_block(prev, &mut work[i..i + 16]);
        }
    }

    // The count goes on from `count`: one more at each block.
    fn decrypt_singly(&self, first: Block, work: &mut [u8], count: u64) -> u64
        ensures { Handed (decrypted_blocks (mode_d self.now.mode (on_bytes (tabled_decrypt self.now.schedule.now)))
            (block_bytes first) work.old count) work.new result }
    {
        let blocks = work.len() / 16;
        let mut prev = first;
        let mut c = count;
        for j in 0..blocks {
            let i = 16 * j;
            prev = self.decrypt_block(prev, &mut work[i..i + 16]);
            c = c.wrapping_add(1);
        }
        c
    }

    // Three by three, and the rest singly; each block counts one.
    pub fn decrypt(&self, first: Block, work: &mut [u8], count: u64) -> u64
        ensures { Handed (decrypted_blocks (mode_d self.now.mode (on_bytes (tabled_decrypt self.now.schedule.now)))
            (block_bytes first) work.old count) work.new result }
    {
        let turns = work.len() / 48;
        let mut prev = first;
        let mut c = count;
        for turn in 0..turns {
            let i = 48 * turn;
            prev = self.decrypt_three(prev, &mut work[i..i + 48]);
            c = c.wrapping_add(3);
        }
        let rest = 48 * turns;
        self.decrypt_singly(prev, &mut work[rest..], c)
    }
}
