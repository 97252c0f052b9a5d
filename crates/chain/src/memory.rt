// A memory of whole blocks in place, in either mode. What a key makes is made only for a length that is not refused. There and back
// are two definitions, and what they share is these few lines.
ghost use Rattle.std.specs.Prelude.{◌≡◌};
ghost use Rattle.twofish.specs.Twofish.{encrypt_block, decrypt_block};
ghost use Rattle.chain.specs.Memory.{encrypted_in_place, decrypted_in_place, Handed};
ghost use Rattle.chain.specs.Blocks.{mode_e, mode_d};

use super::{Chaining, Mode};
use twofish::Schedule;
use twofish::blocks::load;

pub fn encrypt(mode: Mode, key: &[u8; 32], iv: &[u8; 16], work: &mut [u8])
    ensures { work.new ≡ encrypted_in_place (mode_e mode (encrypt_block key.now)) iv.now work.old }
{
    if work.len() % 16 != 0 {
        return;
    }
    let schedule = Schedule::new(key);
    let chaining = Chaining {
        mode,
        schedule: &schedule,
    };
    chaining.encrypt(load(iv), work);
}

pub fn decrypt(mode: Mode, key: &[u8; 32], iv: &[u8; 16], work: &mut [u8], count: u64) -> u64
    ensures { Handed (decrypted_in_place (mode_d mode (decrypt_block key.now)) iv.now work.old count)
        work.new result }
{
    if work.len() % 16 != 0 {
        return count;
    }
    let schedule = Schedule::new(key);
    let chaining = Chaining {
        mode,
        schedule: &schedule,
    };
    chaining.decrypt(load(iv), work, count)
}
