// Key stretching: passphrase and salt hashed once, and the result hashed ITER more times.
#![tactic(auto)]

mod first;

ghost use Rattle.std.specs.Prelude.{◌≡◌};
ghost use Rattle.sha256.specs.Sha256.{words_of};
ghost use Rattle.stretch.specs.Stretch.{compressed as compressed_of, start_of, step_of, stretched_of, key_of};

use sha256::compression::{again, begin, block, compress, digest};

// A hash value, and how many compressions led there.
#[derive(Clone, Copy)]
pub struct Stretcher {
    pub v: [u32; 8],
    pub count: u64,
}

impl Stretcher {
    // The least ITER.
    pub const FLOOR: u32 = 2048;

    // One compression more.
    #[tactic(auto, unfolding(crate::specs::Stretch::compressed))]
    fn compressed(self, b: &[u8; 64]) -> Stretcher
        ensures { result ≡ compressed_of self (words_of 16 b.now) }
    {
        let v = compress(self.v, block(b));
        let count = self.count.wrapping_add(1);
        Stretcher { v, count }
    }

    // The state after the first hash.
    pub fn start(passphrase: &[u8], salt: &[u8; 32]) -> Stretcher
        ensures { result ≡ start_of passphrase.now salt.now }
    {
        let v = begin();
        let mut s = Stretcher { v, count: 0 };
        for q in 0..(passphrase.len() + 40) / 64 + 1 {
            s = s.compressed(&first::block(passphrase, salt, q));
        }
        s
    }

    // One hash more. Its message is 32 bytes, so it is one compression.
    pub fn step(self) -> Stretcher
        ensures { result ≡ step_of self }
    {
        let v = again(self.v);
        let count = self.count.wrapping_add(1);
        Stretcher { v, count }
    }

    // n hashes more.
    pub fn stretched(self, n: u32) -> Stretcher
        ensures { result ≡ stretched_of n self }
    {
        let mut s = self;
        for _ in 0..n {
            s = s.step();
        }
        s
    }

    // The 32 bytes that the state holds.
    #[tactic(auto, unfolding(crate::specs::Stretch::key_of))]
    pub fn key(self) -> [u8; 32]
        ensures { result ≡ key_of self }
    {
        digest(self.v)
    }
}
