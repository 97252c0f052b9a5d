// The blocks of the first hash, of a message in two slices.
ghost use Rattle.std.specs.Prelude.{◌≡◌, ◌+◌, ◌*◌, ◌/◌, ◌≤◌, ◌++◌, length, take, drop, slice_index};
ghost use Rattle.sha256.specs.Sha256.{padding, padded};

use std::array;

// Byte k of the padding after n bytes, and 0 past its end.
fn padding_byte(n: usize, k: usize) -> u8
    ensures { result ≡ slice_index (padding n) k }
{
    // so many zeros that the 8 bytes of the length end a block: 119 is 2 * 64 - 9
    let z = (119 - n % 64) % 64;
    let bits = (n as u64).wrapping_mul(8).to_be_bytes();
    if k == 0 {
        128
    } else if k <= z {
        0
    } else {
        bits.get(k - z - 1).copied().unwrap_or(0)
    }
}

// Byte i of the padded message that p and s make.
fn padded_byte(p: &[u8], s: &[u8], i: usize) -> u8
    ensures { result ≡ slice_index (padded (p.now ++ s.now)) i }
{
    if i < p.len() {
        p[i]
    } else if i - p.len() < s.len() {
        s[i - p.len()]
    } else {
        padding_byte(p.len() + s.len(), i - p.len() - s.len())
    }
}

// The bytes of block q of that message.
pub fn block(p: &[u8], s: &[u8; 32], q: usize) -> [u8; 64]
    requires { q ≤ (length p.now + 40) / 64 }
    ensures { result ≡ take 64 (drop (64 * q) (padded (p.now ++ s.now))) }
{
    array::from_fn(|i| padded_byte(p, s, 64 * q + i))
}
