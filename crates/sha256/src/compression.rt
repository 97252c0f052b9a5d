// The compression of a block, by value, and what goes in and out of it.
ghost use Rattle.std.specs.Prelude.{◌≡◌, ◌+◌, ◌/◌, ◌≤◌, length, take, drop};
ghost use Rattle.sha256.specs.Sha256.{plus, Ch, Maj, three as three_of, Sum0, Sum1, Sigma0, Sigma1, round_of, rounds_of, sum_of, compress_of, schedule_of, word_of, words_of, initial, hash_of, digest_of};
ghost use Rattle.sha256.specs.Running.{folds_of};

use std::array;
use words::numbers::high;
use words::rotation::right;
use words::slices::first;

// The constants of the rounds.
const K: [u32; 64] = [
    0x428a_2f98,
    0x7137_4491,
    0xb5c0_fbcf,
    0xe9b5_dba5,
    0x3956_c25b,
    0x59f1_11f1,
    0x923f_82a4,
    0xab1c_5ed5,
    0xd807_aa98,
    0x1283_5b01,
    0x2431_85be,
    0x550c_7dc3,
    0x72be_5d74,
    0x80de_b1fe,
    0x9bdc_06a7,
    0xc19b_f174,
    0xe49b_69c1,
    0xefbe_4786,
    0x0fc1_9dc6,
    0x240c_a1cc,
    0x2de9_2c6f,
    0x4a74_84aa,
    0x5cb0_a9dc,
    0x76f9_88da,
    0x983e_5152,
    0xa831_c66d,
    0xb003_27c8,
    0xbf59_7fc7,
    0xc6e0_0bf3,
    0xd5a7_9147,
    0x06ca_6351,
    0x1429_2967,
    0x27b7_0a85,
    0x2e1b_2138,
    0x4d2c_6dfc,
    0x5338_0d13,
    0x650a_7354,
    0x766a_0abb,
    0x81c2_c92e,
    0x9272_2c85,
    0xa2bf_e8a1,
    0xa81a_664b,
    0xc24b_8b70,
    0xc76c_51a3,
    0xd192_e819,
    0xd699_0624,
    0xf40e_3585,
    0x106a_a070,
    0x19a4_c116,
    0x1e37_6c08,
    0x2748_774c,
    0x34b0_bcb5,
    0x391c_0cb3,
    0x4ed8_aa4a,
    0x5b9c_ca4f,
    0x682e_6ff3,
    0x748f_82ee,
    0x78a5_636f,
    0x84c8_7814,
    0x8cc7_0208,
    0x90be_fffa,
    0xa450_6ceb,
    0xbef9_a3f7,
    0xc671_78f2,
];

// The initial hash value.
#[tactic(auto, unfolding(crate::specs::Sha256::initial))]
pub fn begin() -> [u32; 8]
    ensures { result ≡ initial }
{
    [
        0x6a09_e667,
        0xbb67_ae85,
        0x3c6e_f372,
        0xa54f_f53a,
        0x510e_527f,
        0x9b05_688c,
        0x1f83_d9ab,
        0x5be0_cd19,
    ]
}

fn ch(x: u32, y: u32, z: u32) -> u32
    ensures { result ≡ Ch x y z }
{
    z ^ (x & (y ^ z))
}

fn maj(x: u32, y: u32, z: u32) -> u32
    ensures { result ≡ Maj x y z }
{
    y ^ ((x ^ y) & (y ^ z))
}

#[tactic(auto, unfolding(crate::specs::Sha256::three))]
fn three(x: u32, y: u32, z: u32) -> u32
    ensures { result ≡ three_of x y z }
{
    x ^ y ^ z
}

// The standard's four functions by its names: what they share is `three` and `right`, and their numbers are all the rest.
fn sum0(x: u32) -> u32
    ensures { result ≡ Sum0 x }
{
    three(right(x, 2), right(x, 13), right(x, 22))
}

fn sum1(x: u32) -> u32
    ensures { result ≡ Sum1 x }
{
    three(right(x, 6), right(x, 11), right(x, 25))
}

fn sigma0(x: u32) -> u32
    ensures { result ≡ Sigma0 x }
{
    three(right(x, 7), right(x, 18), x >> 3)
}

fn sigma1(x: u32) -> u32
    ensures { result ≡ Sigma1 x }
{
    three(right(x, 17), right(x, 19), x >> 10)
}

// A round, with K_t and W_t, which come in pairs.
#[tactic(auto, unfolding(crate::specs::Sha256::round_of, crate::specs::Sha256::T1, crate::specs::Sha256::T2))]
fn round(v: [u32; 8], kw: (&u32, &u32)) -> [u32; 8]
    ensures { result ≡ round_of v kw.entry.0.now kw.entry.1.now }
{
    let [a, b, c, d, e, f, g, h] = v;
    let (k, w) = kw;
    let t1 = h
        .wrapping_add(sum1(e))
        .wrapping_add(ch(e, f, g))
        .wrapping_add(*k)
        .wrapping_add(*w);
    let t2 = sum0(a).wrapping_add(maj(a, b, c));
    [t1.wrapping_add(t2), a, b, c, d.wrapping_add(t1), e, f, g]
}

// Eight rounds: so few are put in one after the other, and the state stays in registers.
#[tactic(auto, unfolding(crate::specs::Sha256::rounds_of))]
fn eight(v: [u32; 8], kw: (&[u32; 8], &[u32; 8])) -> [u32; 8]
    ensures { result ≡ rounds_of kw.entry.0.now kw.entry.1.now v }
{
    let (k, w) = kw;
    k.iter().zip(w).fold(v, round)
}

// The words of all rounds, behind those of the block.
fn extend(w: &mut [u32; 64])
    ensures { w.new ≡ schedule_of (take 16 w.old) }
{
    for t in 16..64 {
        w[t] = sigma1(w[t - 2])
            .wrapping_add(w[t - 7])
            .wrapping_add(sigma0(w[t - 15]))
            .wrapping_add(w[t - 16]);
    }
}

fn sum(x: [u32; 8], y: [u32; 8]) -> [u32; 8]
    ensures { result ≡ sum_of x y }
{
    // By the index: `array::from_fn` takes a compression a tenth longer.
    let mut z = [0u32; 8];
    for i in 0..8 {
        z[i] = x[i].wrapping_add(y[i]);
    }
    z
}

// The hash value after one block more.
pub fn compress(v: [u32; 8], m: [u32; 16]) -> [u32; 8]
    ensures { result ≡ compress_of v m }
{
    let mut w = [0; 64];
    w[..16].copy_from_slice(&m);
    extend(&mut w);
    let (ks, _) = K.as_chunks();
    let (ws, _) = w.as_chunks();
    let x = ks.iter().zip(ws).fold(v, eight);
    sum(x, v)
}

// The word at i.
// As `word_at` of words, but the highest byte first.
fn word(s: &[u8], i: usize) -> u32
    requires { i + 4 ≤ length s.now }
    ensures { result ≡ word_of (drop i s.now) }
{
    high(s[i], s[i + 1], s[i + 2], s[i + 3])
}

// A block of bytes.
pub fn block(b: &[u8; 64]) -> [u32; 16]
    ensures { result ≡ words_of 16 b.now }
{
    array::from_fn(|i| word(b, 4 * i))
}

// The hash value after a block of bytes more.
pub(super) fn fold(v: [u32; 8], b: &[u8; 64]) -> [u32; 8]
    ensures { result ≡ compress_of v (words_of 16 b.now) }
{
    compress(v, block(b))
}

// The whole blocks of s taken in, straight from the slice.
pub fn folds(v: [u32; 8], s: &[u8]) -> [u32; 8]
    ensures { result ≡ folds_of v s.now (length s.now / 64) }
{
    let (blocks, _) = s.as_chunks();
    blocks.iter().fold(v, fold)
}

// The bytes of a hash value.
pub fn digest(v: [u32; 8]) -> [u8; 32]
    ensures { result ≡ digest_of v }
{
    first(v.map(u32::to_be_bytes).as_flattened())
}

// The hash value of a hash value's bytes: they fill half a block, and the padding the rest.
pub fn again(v: [u32; 8]) -> [u32; 8]
    ensures { result ≡ hash_of (digest_of v) }
{
    let [a, b, c, d, e, f, g, h] = v;
    compress(
        begin(),
        [a, b, c, d, e, f, g, h, 0x8000_0000, 0, 0, 0, 0, 0, 0, 256],
    )
}
