// Blocks in bytes, and the cipher on them.
ghost use Rattle.std.specs.Prelude.{◌≡◌};
ghost use Rattle.twofish.specs.Twofish.{block_of, block_bytes, encrypt_block, decrypt_block};

use super::{Block, Schedule};
use words::numbers::word_at;
use words::slices::first;

// The first 16 bytes as a block; what is missing counts as 0.
pub fn load(b: &[u8]) -> Block
    ensures { result ≡ block_of b.now }
{
    let w = first::<16>(b);
    Block {
        a: word_at(&w, 0),
        b: word_at(&w, 4),
        c: word_at(&w, 8),
        d: word_at(&w, 12),
    }
}

pub fn bytes(x: Block) -> [u8; 16]
    ensures { result ≡ block_bytes x }
{
    // By ranges: of an array that std lends in chunks nothing is known afterwards.
    let mut b = [0u8; 16];
    b[0..4].copy_from_slice(&x.a.to_le_bytes());
    b[4..8].copy_from_slice(&x.b.to_le_bytes());
    b[8..12].copy_from_slice(&x.c.to_le_bytes());
    b[12..16].copy_from_slice(&x.d.to_le_bytes());
    b
}

// One block under a key. Two directions, in two functions of the definition.
pub fn encrypt_block(m: &[u8; 32], b: &[u8]) -> [u8; 16]
    ensures { result ≡ encrypt_block m.now b.now }
{
    bytes(Schedule::new(m).encrypt(load(b)))
}

pub fn decrypt_block(m: &[u8; 32], b: &[u8]) -> [u8; 16]
    ensures { result ≡ decrypt_block m.now b.now }
{
    bytes(Schedule::new(m).decrypt(load(b)))
}
