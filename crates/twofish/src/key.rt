// The key schedule. t0 and t1 are the tables of q0 and q1; a list l of four words is given by its 16 bytes.
ghost use Rattle.std.specs.Prelude.{◌≡◌, ◌+◌, ◌*◌, ◌/◌, ◌%◌, ◌^◌, ◌<◌};
ghost use Rattle.words.specs.Table.{at, table};
ghost use Rattle.twofish.specs.Field.{dot};
ghost use Rattle.twofish.specs.Key.{h as h_of, eight, box_key, word_a, word_b, subkeys as subkeys_of};
ghost use Rattle.twofish.specs.Tabled.{y as y_of};

use super::field::times;
use super::q::q;
use super::tables::entry;
use std::array;
use words::numbers::byte;
use words::rotation::left;

// Which of q0 and q1 byte j of a word goes through, one after the other (4.3.2).
static ORDER: [[usize; 5]; 4] = [
    [1, 1, 0, 0, 1],
    [0, 1, 1, 0, 0],
    [0, 0, 0, 1, 1],
    [1, 0, 1, 1, 0],
];

// Byte j of a word, x, through q0 and q1 in that order, with byte j of each word of l in between; a j past 3 counts as 3.
pub fn y(t0: &[u8; 256], t1: &[u8; 256], l: &[u8; 16], j: usize, x: u8) -> u8
    ensures { result ≡ y_of (at t0.now) (at t1.now) l.now j x }
{
    let j = j.min(3);
    let o = &ORDER[j];
    let a = q(t0, t1, o[0], x) ^ l[12 + j];
    let b = q(t0, t1, o[1], a) ^ l[8 + j];
    let c = q(t0, t1, o[2], b) ^ l[4 + j];
    let d = q(t0, t1, o[3], c) ^ l[j];
    q(t0, t1, o[4], d)
}

pub fn h(t0: &[u8; 256], t1: &[u8; 256], l: &[u8; 16], x: u32) -> u32
    ensures { result ≡ h_of (at t0.now) (at t1.now) l.now x }
{
    entry(t0, t1, l, 0, byte(x, 0))
        ^ entry(t0, t1, l, 1, byte(x, 1))
        ^ entry(t0, t1, l, 2, byte(x, 2))
        ^ entry(t0, t1, l, 3, byte(x, 3))
}

static RS: [[u8; 8]; 4] = [
    [0x01, 0xA4, 0x55, 0x87, 0x5A, 0x58, 0xDB, 0x9E],
    [0xA4, 0x56, 0x82, 0xF3, 0x1E, 0xC6, 0x68, 0xE5],
    [0x02, 0xA1, 0xFC, 0xC1, 0x47, 0xAE, 0x3D, 0x19],
    [0xA4, 0x55, 0x87, 0x5A, 0x58, 0xDB, 0x9E, 0x03],
];

// A row of the RS matrix times the eight bytes of the key from i on.
fn rs(row: &[u8; 8], m: &[u8; 32], i: usize) -> u8
    requires { i < 25 }
    ensures { result ≡ dot 0x14D 0 row.now (eight m.now i) }
{
    // By the index, as `dot` and `eight` of the definitions go.
    let mut sum = 0;
    for k in 0..8 {
        sum ^= times(row[k], m[i + k]);
    }
    sum
}

// The vector S.
pub fn box_key(m: &[u8; 32]) -> [u8; 16]
    ensures { result ≡ box_key m.now }
{
    array::from_fn(|n| rs(&RS[n % 4], m, 24 - 8 * (n / 4)))
}

// Every other word of the key, as bytes, from byte `from` on.
fn every_other(m: &[u8; 32], from: usize) -> [u8; 16]
    requires { from < 5 }
    ensures { result ≡ table 16 (λ k. at m.now (8 * (k / 4) + k % 4 + from)) }
{
    array::from_fn(|k| m[8 * (k / 4) + k % 4 + from])
}

// Two words of a pair, by two formulas of the paper.
fn word_a(t0: &[u8; 256], t1: &[u8; 256], e: &[u8; 16], i: u32) -> u32
    requires { i < 20 }
    ensures { result ≡ word_a (at t0.now) (at t1.now) e.now i }
{
    h(t0, t1, e, 2 * i * 0x01010101)
}

fn word_b(t0: &[u8; 256], t1: &[u8; 256], o: &[u8; 16], i: u32) -> u32
    requires { i < 20 }
    ensures { result ≡ word_b (at t0.now) (at t1.now) o.now i }
{
    left(h(t0, t1, o, (2 * i + 1) * 0x01010101), 8)
}

// The pseudo-Hadamard transform of two words (4.3), a + b and a + 2 b, and to each a word more, modulo 2^32.
pub fn transformed(a: u32, b: u32, k: u32, l: u32) -> (u32, u32)
    ensures first { result.0 ≡ (a + b + k) % 2 ^ 32 }
    ensures second { result.1 ≡ (a + 2 * b + l) % 2 ^ 32 }
{
    (
        a.wrapping_add(b).wrapping_add(k),
        a.wrapping_add(b.wrapping_mul(2)).wrapping_add(l),
    )
}

// The 40 subkeys.
pub fn subkeys(t0: &[u8; 256], t1: &[u8; 256], m: &[u8; 32]) -> [u32; 40]
    ensures { result ≡ subkeys_of (at t0.now) (at t1.now) m.now }
{
    let e = every_other(m, 0);
    let o = every_other(m, 4);
    let mut k = [0u32; 40];
    // By ranges: of an array that std lends in chunks nothing is known afterwards.
    for i in 0..20 {
        let (a, b) = transformed(word_a(t0, t1, &e, i), word_b(t0, t1, &o, i), 0, 0);
        let j = 2 * i as usize;
        k[j] = a;
        k[j + 1] = left(b, 9);
    }
    k
}
