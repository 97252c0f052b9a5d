// HMAC of a message that is taken in piece by piece.
ghost use Rattle.std.specs.Prelude.{◌≡◌, []};
ghost use Rattle.sha256.specs.Hmac.{key_block, keyed as keyed_of, hmac_of};
ghost use Rattle.sha256.specs.Running.{running_of, mac_of, MacTakes, MacEnds};

use super::compression::digest;
use super::hash::{Running, hash};
use words::slices::first;

// The hash of the inner key and the message so far, and the hash value after the outer key.
#[derive(Clone, Copy)]
pub struct Mac {
    pub inner: Running,
    pub outer: [u32; 8],
}

// The key with zeros up to a block; a longer one is hashed first.
fn key_block(key: &[u8]) -> [u8; 64]
    ensures { result ≡ key_block key.now }
{
    if key.len() <= 64 {
        return first(key);
    }
    first(&hash(key))
}

// The key's block, each byte exclusive-ored with x.
fn keyed(key: &[u8], x: u8) -> [u8; 64]
    ensures { result ≡ keyed_of x key.now }
{
    let mut p = key_block(key);
    // In place: `map` over the array takes a short HMAC a quarter longer.
    for i in 0..64 {
        p[i] ^= x;
    }
    p
}

// The state after such a block.
fn begun(key: &[u8], x: u8) -> Running
    ensures { result ≡ running_of (keyed_of x key.now) }
{
    Running::start().take_in(&keyed(key, x))
}

impl Mac {
    // No message yet.
    pub fn start(key: &[u8]) -> Mac
        ensures { result ≡ mac_of key.now [] }
    {
        let inner = begun(key, 0x36);
        let o = begun(key, 0x5c);
        let outer = o.v;
        Mac { inner, outer }
    }

    // A piece of the message.
    pub fn take_in(self, s: &[u8]) -> Mac
        ensures { MacTakes self s.now result }
    {
        let inner = self.inner.take_in(s);
        let outer = self.outer;
        Mac { inner, outer }
    }

    // The same, in place: the thin form that document 01 has.
    pub fn absorb(&mut self, piece: &[u8])
        ensures { MacTakes self.old piece.now self.new }
    {
        *self = self.take_in(piece);
    }

    // The code of the message.
    pub fn finish(self) -> [u8; 32]
        ensures { MacEnds self result }
    {
        let d = digest(self.inner.finish());
        let v = self.outer;
        let tail = [0; 64];
        let outer = Running { v, len: 64, tail };
        digest(outer.take_in(&d).finish())
    }
}

// The code of a message that is there at once.
pub fn hmac(key: &[u8], message: &[u8]) -> [u8; 32]
    ensures { result ≡ hmac_of key.now message.now }
{
    Mac::start(key).take_in(message).finish()
}
