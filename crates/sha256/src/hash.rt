// The running hash, which takes pieces of any length, and the hash of a slice.
ghost use Rattle.std.specs.Prelude.{◌≡◌, ◌+◌, ◌%◌, ◌^◌, ◌<◌, ◌≤◌, ◌++◌, [], length, take, drop};
ghost use Rattle.sha256.specs.Sha256.{sha256};
ghost use Rattle.sha256.specs.Running.{running_of, Takes, Ends};

use super::compression::{begin, digest, fold, folds};
use words::slices::first;

// What is kept of the bytes so far: the hash value of their whole blocks, their number modulo 2^64, and the bytes after the last whole
// block, with zeros after them.
// No heap: the tail has its full size, and `len`, which the padding needs anyway, says how much of it counts.
#[derive(Clone, Copy)]
pub struct Running {
    pub v: [u32; 8],
    pub len: u64,
    pub tail: [u8; 64],
}

impl Running {
    // No bytes.
    #[tactic(auto, unfolding(crate::specs::Running::running_of, crate::specs::Sha256::hash_value))]
    pub fn start() -> Running
        ensures { result ≡ running_of [] }
    {
        let v = begin();
        let tail = [0; 64];
        Running { v, len: 0, tail }
    }

    // The number of bytes with those of s, modulo 2^64.
    fn advanced(self, s: &[u8]) -> u64
        ensures { result ≡ (self.len + length s.now) % 2 ^ 64 }
    {
        self.len.wrapping_add(s.len() as u64)
    }

    // s behind the bytes of the tail.
    // This one and the three after it: each asks another thing of the tail.
    fn filled(self, s: &[u8]) -> [u8; 64]
        requires { self.len % 64 + length s.now ≤ 64 }
        ensures { result ≡ take (self.len % 64) self.tail ++ (s.now ++ drop (self.len % 64 + length s.now) self.tail) }
    {
        let mut t = self.tail;
        let at = (self.len % 64) as usize;
        t[at..at + s.len()].copy_from_slice(s);
        t
    }

    // Bytes that leave the block open.
    fn short(self, s: &[u8]) -> Running
        requires { self.len % 64 + length s.now < 64 }
        ensures { Takes self s.now result }
    {
        let v = self.v;
        let len = self.advanced(s);
        let tail = self.filled(s);
        Running { v, len, tail }
    }

    // Bytes that end the block.
    fn closed(self, s: &[u8]) -> Running
        requires { self.len % 64 + length s.now ≡ 64 }
        ensures { (result.len % 64 ≡ 0) × Takes self s.now result }
    {
        let v = fold(self.v, &self.filled(s));
        let len = self.advanced(s);
        let tail = [0; 64];
        Running { v, len, tail }
    }

    // Bytes after a whole number of blocks.
    fn rest(self, s: &[u8]) -> Running
        requires { self.len % 64 ≡ 0 }
        ensures { Takes self s.now result }
    {
        let (_, left) = s.as_chunks::<64>();
        let v = folds(self.v, s);
        let len = self.advanced(s);
        let tail = first(left);
        Running { v, len, tail }
    }

    // Any bytes.
    pub fn take_in(self, s: &[u8]) -> Running
        ensures { Takes self s.now result }
    {
        let need = 64 - (self.len % 64) as usize;
        if s.len() < need {
            return self.short(s);
        }
        let (now, later) = s.split_at(need);
        self.closed(now).rest(later)
    }

    // The padding is taken in as two more pieces.
    pub fn finish(self) -> [u32; 8]
        ensures { Ends self result }
    {
        let mut p = [0; 64];
        p[0] = 128;
        let e = 1 + ((119 - self.len % 64) % 64) as usize;
        let l = self.len.wrapping_mul(8).to_be_bytes();
        self.take_in(&p[..e]).take_in(&l).v
    }
}

// The hash of any bytes.
pub fn hash(s: &[u8]) -> [u8; 32]
    ensures { result ≡ sha256 s.now }
{
    digest(Running::start().take_in(s).finish())
}
