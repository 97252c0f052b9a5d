// The Twofish paper's vectors for keys of 256 bits, and both modes, printed. BACK is what decryption makes of CT.
#![tactic(auto)]

use std::{array, fmt, io};
use twofish::blocks::{decrypt_block, encrypt_block};

// Bytes in hex digits. Programs share no crate.
#[derive(Clone, Copy)]
struct Hex<'a>(&'a [u8]);

impl fmt::Display for Hex<'_> {
    fn fmt<W: fmt::Write>(&self, f: &mut fmt::Formatter<W>) -> fmt::Result {
        let bytes = self.0;
        for b in bytes {
            write!(f, "{b:02x}")?;
        }
        Ok(())
    }
}

fn vector(rt: &impl Print, key: &[u8; 32], text: &[u8; 16]) -> io::Result<[u8; 16]> {
    let cipher = encrypt_block(key, text);
    let back = decrypt_block(key, &cipher);
    println!(rt;
        "KEY={} PT={} CT={} BACK={}",
        Hex(key),
        Hex(text),
        Hex(&cipher),
        Hex(&back)
    )?;
    Ok(cipher)
}

// The next key of the table: the text, then the first half of the key.
fn next_key(key: &[u8; 32], text: &[u8; 16]) -> [u8; 32] {
    let mut next = [0u8; 32];
    next[..16].copy_from_slice(text);
    next[16..].copy_from_slice(&key[..16]);
    next
}

fn table(rt: &impl Print) -> io::Result<()> {
    let mut key = [0u8; 32];
    let mut text = [0u8; 16];
    for i in 1..50 {
        print!(rt; "I={i} ")?;
        let cipher = vector(rt, &key, &text)?;
        key = next_key(&key, &text);
        text = cipher;
    }
    Ok(())
}

fn ecb(rt: &impl Print, key: &[u8; 32], m: &mut [u8]) -> io::Result<u64> {
    chain::ecb_encrypt(key, m);
    println!(rt; "ECB {}", Hex(m))?;
    let count = chain::ecb_decrypt(key, m, 0);
    println!(rt; "BACK {} BLOCKS={count}", Hex(m))?;
    Ok(count)
}

// The whole memory is no whole number of blocks: it is refused.
fn cbc(
    rt: &impl Print,
    key: &[u8; 32],
    iv: &[u8; 16],
    text: &[u8; 64],
    m: &mut [u8; 68],
    count: u64,
) -> io::Result<()> {
    chain::cbc_encrypt(key, iv, text, m);
    println!(rt; "CBC {}", Hex(m))?;
    let more = chain::cbc_decrypt(key, iv, &mut m[..64], count);
    println!(rt; "BACK {} BLOCKS={more}", Hex(m))?;
    let same = chain::cbc_decrypt(key, iv, m, more);
    println!(rt; "REFUSED {} BLOCKS={same}", Hex(m))
}

// Four blocks in ECB, then four in CBC, whose count goes on from the first.
fn modes(rt: &impl Print, key: &[u8; 32]) -> io::Result<()> {
    let iv = b"\xf0\xf1\xf2\xf3\xf4\xf5\xf6\xf7\xf8\xf9\xfa\xfb\xfc\xfd\xfe\xff";
    let text: [u8; 64] = array::from_fn(|i| (i % 256) as u8);
    let mut m = text;
    let four = ecb(rt, key, &mut m)?;
    let mut work = [0xEE; 68];
    cbc(rt, key, iv, &text, &mut work, four)
}

fn main(rt: HostRuntime) -> io::Result<()> {
    table(&rt)?;
    let key =
        b"\x01\x23\x45\x67\x89\xab\xcd\xef\xfe\xdc\xba\x98\x76\x54\x32\x10\x00\x11\x22\x33\x44\x55\x66\x77\x88\x99\xaa\xbb\xcc\xdd\xee\xff";
    let text = [0u8; 16];
    vector(&rt, key, &text)?;
    modes(&rt, key)
}
