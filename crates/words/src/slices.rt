// Slices of bytes: zeroed, copied, compared. Each contract speaks of the whole memory.
ghost use Rattle.std.specs.Prelude.{◌≡◌, length};
ghost use Rattle.words.specs.Slices.{zeros, copied, same as same_of};

use crate::numbers::wide_at;

pub fn zero(s: &mut [u8])
    ensures { s.new ≡ zeros (length s.old) }
{
    s.fill(0);
}

// `from` over the start of `to`, as far as `to` goes.
pub fn copy(to: &mut [u8], from: &[u8])
    ensures { to.new ≡ copied to.old from.now }
{
    // By elements: std's copy_from_slice of any length is a memmove, which C would have to bring.
    for i in 0..to.len().min(from.len()) {
        to[i] = from[i];
    }
}

pub fn same(a: &[u8], b: &[u8]) -> bool
    ensures { result ≡ same_of a.now b.now }
{
    a == b
}

// The same, of 16 bytes. By halves: std's comparison goes byte by byte, and a search over many blocks would take half as long again.
pub fn same_16(a: &[u8; 16], b: &[u8; 16]) -> bool
    ensures { result ≡ same_of a.now b.now }
{
    wide_at(a, 0) == wide_at(b, 0) && wide_at(a, 8) == wide_at(b, 8)
}

// The first N bytes as a value of fixed size, zeros where s is shorter.
pub fn first<const N: usize>(s: &[u8]) -> [u8; N]
    ensures { result ≡ copied (zeros N) s.now }
{
    let mut v = [0u8; N];
    copy(&mut v, s);
    v
}
