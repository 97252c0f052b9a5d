// The layers under the reader at the C boundary, for tests and benchmarks alone: the product does not link them.
#![tactic(auto)]

ghost use Rattle.std.specs.Prelude.{◌≡◌, length};
ghost use Rattle.sha256.specs.Sha256.{sha256};
ghost use Rattle.sha256.specs.Hmac.{hmac_of};
ghost use Rattle.stretch.specs.Stretch.{start_of, stretched_of, key_of};
ghost use Rattle.chain.specs.Modes.{cbc_e, cbc_d};
ghost use Rattle.chain.specs.Memory.{encrypted_into, decrypted_in_place, Handed};
ghost use Rattle.chain.specs.Twofish.{twofish_cipher};
ghost use Rattle.uuids.specs.Uuids.{uuids_from, Repeats};
ghost use Rattle.uuids.specs.Batches.{answer_of};

use stretch::Stretcher;

#[unsafe(no_mangle)]
pub extern "C" fn probe_hash(m: &[u8], out: &mut [u8; 32])
    ensures { out.new ≡ sha256 m.now }
{
    *out = sha256::hash::hash(m);
}

#[unsafe(no_mangle)]
pub extern "C" fn probe_hmac(key: &[u8], m: &[u8], out: &mut [u8; 32])
    ensures { out.new ≡ hmac_of key.now m.now }
{
    *out = sha256::hmac::hmac(key, m);
}

// The running hash of a message in pieces of that many bytes; 0 counts as 1.
fn pieces(m: &[u8], piece: usize) -> [u8; 32]
    ensures { result ≡ sha256 m.now }
{
    let mut st = sha256::Running::start();
    for part in m.chunks(piece.max(1)) {
        st = st.take_in(part);
    }
    sha256::compression::digest(st.finish())
}

#[unsafe(no_mangle)]
pub extern "C" fn probe_pieces(m: &[u8], piece: usize, out: &mut [u8; 32])
    ensures { out.new ≡ sha256 m.now }
{
    *out = pieces(m, piece);
}

// The compressions spent; `out` holds P'.
#[unsafe(no_mangle)]
pub extern "C" fn probe_stretch(
    passphrase: &[u8],
    salt: &[u8; 32],
    iter: u32,
    out: &mut [u8; 32],
) -> u64
    ensures answer { result ≡ (stretched_of iter (start_of passphrase.now salt.now)).count }
    ensures memory { out.new ≡ key_of (stretched_of iter (start_of passphrase.now salt.now)) }
{
    let s = Stretcher::start(passphrase, salt).stretched(iter);
    *out = s.key();
    s.count
}

// The blocks decrypted.
#[unsafe(no_mangle)]
pub extern "C" fn probe_decrypt(key: &[u8; 32], iv: &[u8; 16], text: &mut [u8]) -> u64
    ensures { Handed (decrypted_in_place (cbc_d twofish_cipher key.now) iv.now text.old 0) text.new result }
{
    chain::cbc_decrypt(key, iv, text, 0)
}

// `from`, encrypted into the start of `to`.
#[unsafe(no_mangle)]
pub extern "C" fn probe_encrypt(key: &[u8; 32], iv: &[u8; 16], from: &[u8], to: &mut [u8])
    ensures { to.new ≡ encrypted_into (cbc_e twofish_cipher key.now) iv.now from.now to.old }
{
    chain::cbc_encrypt(key, iv, from, to);
}

// The number of the first UUID, from the place on, that an earlier one is the same as; the number of bytes where no two are, since C
// has no Option.
#[unsafe(no_mangle)]
pub extern "C" fn probe_repeated(body: &[u8], from: usize) -> usize
    ensures { Repeats (uuids_from body.now from) (answer_of result (length body.now)) }
{
    uuids::repeated(body, from).unwrap_or(body.len())
}
