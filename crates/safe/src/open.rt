// Opening a file that has passed the early tests.
ghost use Rattle.safe.specs.Calls.{Reports};
ghost use Rattle.safe.specs.Steps.{Ready, settled_under, opened_by};

use super::decrypt::decrypt;
use super::refusals::iter;
use super::settle::settle;
use super::{Reading, Refusal, refused};
use stretch::Stretcher;
use words::slices::{first, same};

// The body under P', decrypted into the workspace and settled there. `compressions` and the passphrase's check are behind us.
fn unlocked(file: &[u8], key: &[u8; 32], compressions: u64, workspace: &mut [u8]) -> Reading
    requires { Ready file.now workspace.old }
    ensures { Reports (settled_under file.now key.now compressions) workspace.old workspace.new result }
{
    let n = file.len() - 200;
    let body = &mut workspace[..n];
    let from = decrypt(file, key, body);
    let mac = &file[file.len() - 32..];
    settle(from, mac, compressions, body)
}

// The passphrase stretched and checked, and then the body.
pub fn open(file: &[u8], passphrase: &[u8], workspace: &mut [u8]) -> Reading
    requires { Ready file.now workspace.old }
    ensures { Reports (opened_by passphrase.now file.now) workspace.old workspace.new result }
{
    let salt = first::<32>(&file[4..36]);
    let s = Stretcher::start(passphrase, &salt).stretched(iter(file));
    let c = s.step();
    if !same(&c.key(), &file[40..72]) {
        return refused(Refusal::Check, c.count, 0);
    }
    unlocked(file, &s.key(), c.count, workspace)
}
