// The two keys and the whole body, decrypted under the stretched key P'.
ghost use Rattle.std.specs.Prelude.{◌≡◌, length};
ghost use Rattle.safe.specs.Steps.{Unwrapped, Measured, Decrypts};

use super::Keys;
use words::slices::{copy, first};

// The keys, and the blocks decrypted so far.
#[derive(Drop)]
pub struct Decrypted {
    pub keys: Keys,
    pub blocks: u64,
}

fn unwrap(key: &[u8; 32], keys: &[u8]) -> Decrypted
    requires { length keys.now ≡ 64 }
    ensures { Unwrapped key.now keys.now result }
{
    let mut w = first::<64>(keys);
    let blocks = chain::ecb_decrypt(key, &mut w, 0);
    let keys = Keys {
        k: first::<32>(&w[..32]),
        l: first::<32>(&w[32..]),
    };
    Decrypted { keys, blocks }
}

// `work` is as long as the body, and holds it afterwards. The count goes on from that of the keys.
pub fn decrypt(file: &[u8], key: &[u8; 32], work: &mut [u8]) -> Decrypted
    requires { Measured file.now (length work.old) }
    ensures { Decrypts file.now key.now work.new result }
{
    let Decrypted { keys, blocks } = unwrap(key, &file[72..136]);
    let iv = first::<16>(&file[136..152]);
    let e = file.len() - 48;
    copy(work, &file[152..e]);
    let blocks = chain::cbc_decrypt(&keys.k, &iv, work, blocks);
    Decrypted { keys, blocks }
}
