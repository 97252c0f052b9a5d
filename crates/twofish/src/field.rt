// Bytes as polynomials over GF(2).
ghost use Rattle.std.specs.Prelude.{◌≡◌, ◌*◌, ◌%◌};
ghost use Rattle.twofish.specs.Field.{gf, twice as twice_of};
ghost use Rattle.twofish.specs.Columns.{half as half_of, column as column_of};

use words::numbers::low;

// x divided by the polynomial x, modulo 0x169.
fn half(x: u8) -> u8
    ensures { result ≡ half_of x }
{
    if x % 2 == 0 { x / 2 } else { x / 2 ^ 0xB4 }
}

// x times 0x5B, which is 1 + 1/4, and times 0xEF, which is 1 + 1/2 + 1/4.
fn multiples(x: u8) -> (u8, u8)
    ensures first { result.0 ≡ gf 0x169 0x5B x }
    ensures second { result.1 ≡ gf 0x169 0xEF x }
{
    let h = half(x);
    let q = half(h);
    (x ^ q, x ^ h ^ q)
}

// Column j of the MDS matrix, times a byte; a j past 3 counts as 3.
pub fn column(j: usize, y: u8) -> u32
    ensures { result ≡ column_of j y }
{
    let (b, e) = multiples(y);
    // The matrix itself, column by column.
    match j {
        0 => low(y, b, e, e),
        1 => low(e, e, b, y),
        2 => low(b, e, y, e),
        _ => low(b, y, e, b),
    }
}

// a times the polynomial x, modulo 0x14D.
fn twice(a: u8) -> u8
    ensures { result ≡ twice_of 0x14D a }
{
    let x = 2 * (a as u32);
    if x < 256 {
        x as u8
    } else {
        ((x ^ 0x14D) % 256) as u8
    }
}

// a, where b is odd.
fn part(a: u8, b: u8) -> u8
    ensures { result ≡ b % 2 * a }
{
    if b % 2 == 0 { 0 } else { a }
}

// a times b, modulo 0x14D.
pub fn times(a: u8, b: u8) -> u8
    ensures { result ≡ gf 0x14D a b }
{
    let mut r = 0;
    let mut x = a;
    let mut y = b;
    for _ in 0..8u8 {
        r ^= part(x, y);
        x = twice(x);
        y /= 2;
    }
    r
}
