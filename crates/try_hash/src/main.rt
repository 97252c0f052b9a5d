// The published vectors of SHA-256 and HMAC-SHA-256, and key stretching; a line each, which an independent program agrees with.
#![tactic(auto)]

use sha256::Running;
use sha256::compression::digest;
use sha256::hash::hash;
use sha256::hmac::hmac;
use std::{array, fmt, io};
use stretch::Stretcher;

// Bytes in hex digits. Programs share no crate.
#[derive(Drop)]
struct Hex([u8; 32]);

impl fmt::Display for Hex {
    fn fmt<W: fmt::Write>(&self, f: &mut fmt::Formatter<W>) -> fmt::Result {
        for b in &self.0 {
            write!(f, "{b:02x}")?;
        }
        Ok(())
    }
}

fn named(rt: &impl Print, name: &str, digest: [u8; 32]) -> io::Result<()> {
    println!(rt; "{name}: {}", Hex(digest))
}

// One million a, in a thousand pieces.
fn million() -> [u8; 32] {
    let piece = [b'a'; 1000];
    let mut st = Running::start();
    for _ in 0..1000 {
        st = st.take_in(&piece);
    }
    digest(st.finish())
}

fn stretch(rt: &impl Print, name: &str, passphrase: &[u8], iter: u32) -> io::Result<()> {
    let salt = array::from_fn(|i| (i % 256) as u8);
    let k = Stretcher::start(passphrase, &salt).stretched(iter);
    let c = k.step();
    println!(rt; "stretched, {name}: {}", Hex(k.key()))?;
    named(rt, "its check", c.key())?;
    println!(rt; "compressions: {}", c.count)
}

fn hashes(rt: &impl Print) -> io::Result<()> {
    named(rt, "FIPS 180-2 B.1", hash(b"abc"))?;
    named(
        rt,
        "FIPS 180-2 B.2",
        hash(b"abcdbcdecdefdefgefghfghighijhijkijkljklmklmnlmnomnopnopq"),
    )?;
    named(rt, "FIPS 180-2 B.3", million())
}

fn macs(rt: &impl Print) -> io::Result<()> {
    named(rt, "RFC 4231 case 1", hmac(&[0x0b; 20], b"Hi There"))?;
    named(
        rt,
        "RFC 4231 case 2",
        hmac(b"Jefe", b"what do ya want for nothing?"),
    )?;
    named(rt, "RFC 4231 case 3", hmac(&[0xaa; 20], &[0xdd; 50]))?;
    named(
        rt,
        "RFC 4231 case 4",
        hmac(
            b"\x01\x02\x03\x04\x05\x06\x07\x08\x09\x0a\x0b\x0c\x0d\x0e\x0f\x10\x11\x12\x13\x14\x15\x16\x17\x18\x19",
            &[0xcd; 50],
        ),
    )?;
    named(
        rt,
        "RFC 4231 case 5",
        hmac(&[0x0c; 20], b"Test With Truncation"),
    )?;
    named(
        rt,
        "RFC 4231 case 6",
        hmac(
            &[0xaa; 131],
            b"Test Using Larger Than Block-Size Key - Hash Key First",
        ),
    )?;
    named(
        rt,
        "RFC 4231 case 7",
        hmac(
            &[0xaa; 131],
            b"This is a test using a larger than block-size key and a larger than block-size data. The key needs to be hashed before being used by the HMAC algorithm.",
        ),
    )
}

fn main(rt: HostRuntime) -> io::Result<()> {
    hashes(&rt)?;
    macs(&rt)?;
    stretch(&rt, "empty passphrase", b"", 2048)?;
    stretch(&rt, "23 bytes", b"correct horse battery 1", 2048)?;
    stretch(&rt, "24 bytes", b"correct horse battery 12", 2048)?;
    stretch(&rt, "100 bytes", &[0x78; 100], 2049)
}
