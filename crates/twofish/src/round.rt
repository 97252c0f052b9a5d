// The look-ups of g, a round of the cipher and back, and the whitening.
ghost use Rattle.std.specs.Prelude.{◌≡◌, ◌<◌};
ghost use Rattle.words.specs.Table.{at};
ghost use Rattle.twofish.specs.Cipher.{whiten as whiten_of, swap as swap_of, F0, F1, round as round_of, unround as unround_of};
ghost use Rattle.twofish.specs.Tabled.{tabled_g};

use super::key::transformed;
use super::{Block, Schedule};
use words::numbers::byte;
use words::rotation::{left, right};

impl Schedule {
    fn g(&self, x: u32) -> u32
        ensures { result ≡ tabled_g self.now.g x }
    {
        self.g[0][byte(x, 0) as usize]
            ^ self.g[1][byte(x, 1) as usize]
            ^ self.g[2][byte(x, 2) as usize]
            ^ self.g[3][byte(x, 3) as usize]
    }

    // The two words of the function F in round i (4.1).
    // A plain number: callers have it from a `for`, and a type of its own would be made and taken apart at every call.
    fn f(&self, i: usize, a: u32, b: u32) -> (u32, u32)
        requires { i < 16 }
        ensures first { result.0 ≡ F0 (tabled_g self.now.g) (at self.now.k) i a b }
        ensures second { result.1 ≡ F1 (tabled_g self.now.g) (at self.now.k) i a b }
    {
        transformed(
            self.g(a),
            self.g(left(b, 8)),
            self.k[2 * i + 8],
            self.k[2 * i + 9],
        )
    }

    // Back is its own formula, and no round with other numbers.
    pub(crate) fn round(&self, i: usize, x: Block) -> Block
        requires { i < 16 }
        ensures { result ≡ round_of (tabled_g self.now.g) (at self.now.k) i x }
    {
        let (p, q) = self.f(i, x.a, x.b);
        Block {
            a: right(x.c ^ p, 1),
            b: left(x.d, 1) ^ q,
            c: x.a,
            d: x.b,
        }
    }

    pub(crate) fn unround(&self, i: usize, x: Block) -> Block
        requires { i < 16 }
        ensures { result ≡ unround_of (tabled_g self.now.g) (at self.now.k) i x }
    {
        let (p, q) = self.f(i, x.c, x.d);
        Block {
            a: x.c,
            b: x.d,
            c: left(x.a, 1) ^ p,
            d: right(x.b ^ q, 1),
        }
    }

    // The words of a block, each with a subkey.
    pub(crate) fn whiten(&self, i: usize, x: Block) -> Block
        requires { i < 5 }
        ensures { result ≡ whiten_of (at self.now.k) i x }
    {
        Block {
            a: x.a ^ self.k[i],
            b: x.b ^ self.k[i + 1],
            c: x.c ^ self.k[i + 2],
            d: x.d ^ self.k[i + 3],
        }
    }
}

pub fn swap(x: Block) -> Block
    ensures { result ≡ swap_of x }
{
    Block {
        a: x.c,
        b: x.d,
        c: x.a,
        d: x.b,
    }
}
