// ECB and CBC over Twofish, in lent memory of any whole number of blocks. A length that is no multiple of 16 is refused:
// the memory stays, and the count is handed on as it came.
#![tactic(auto)]

mod beside;
mod block;
mod blocks;
mod memory;

ghost use Rattle.std.specs.Prelude.{◌≡◌};
ghost use Rattle.words.specs.Slices.{zeros};
ghost use Rattle.chain.specs.Modes.{ecb_e, ecb_d, cbc_e, cbc_d};
ghost use Rattle.chain.specs.Memory.{encrypted_in_place, encrypted_into, decrypted_in_place, Handed};
ghost use Rattle.chain.specs.Twofish.{twofish_cipher};

use twofish::Schedule;
use words::slices::copy;

// Which of the two decides in `chained` alone: a trait of modes would have that one method twice, and a type parameter at every
// function here.
#[derive(Clone, Copy)]
enum Mode {
    Ecb,
    Cbc,
}

// A mode, over what a key makes.
#[derive(Clone, Copy)]
struct Chaining<'a> {
    mode: Mode,
    schedule: &'a Schedule,
}

pub fn ecb_encrypt(key: &[u8; 32], work: &mut [u8])
    ensures { work.new ≡ encrypted_in_place (ecb_e twofish_cipher key.now) (zeros 16) work.old }
{
    memory::encrypt(Mode::Ecb, key, &[0; 16], work);
}

// The count goes on from `count`, one more at each block.
pub fn ecb_decrypt(key: &[u8; 32], work: &mut [u8], count: u64) -> u64
    ensures { Handed (decrypted_in_place (ecb_d twofish_cipher key.now) (zeros 16) work.old count) work.new result }
{
    memory::decrypt(Mode::Ecb, key, &[0; 16], work, count)
}

pub fn cbc_decrypt(key: &[u8; 32], iv: &[u8; 16], work: &mut [u8], count: u64) -> u64
    ensures { Handed (decrypted_in_place (cbc_d twofish_cipher key.now) iv.now work.old count) work.new result }
{
    memory::decrypt(Mode::Cbc, key, iv, work, count)
}

// `from`, encrypted into the start of `to`; a `to` that is too short stays as it was.
pub fn cbc_encrypt(key: &[u8; 32], iv: &[u8; 16], from: &[u8], to: &mut [u8])
    ensures { to.new ≡ encrypted_into (cbc_e twofish_cipher key.now) iv.now from.now to.old }
{
    let n = from.len();
    if n % 16 != 0 || to.len() < n {
        return;
    }
    copy(&mut to[..n], from);
    memory::encrypt(Mode::Cbc, key, iv, &mut to[..n]);
}
