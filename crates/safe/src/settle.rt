// What a decrypted body comes to. The two counts are handed in, and nothing here changes them.
ghost use Rattle.std.specs.Prelude.{◌≡◌};
ghost use Rattle.safe.specs.Steps.{verdict_of, Settles};

use super::decrypt::Decrypted;
use super::{Opened, Reading, Refusal, refused};
use body::Counts;
use words::slices::{same, zero};

// The counts of a body that is well formed and whose HMAC is mac; both faults are one refusal.
#[tactic(auto, unfolding(crate::specs::Steps::verdict_of, body::specs::Decision::judged_of))]
fn judged(body: &[u8], l: &[u8; 32], mac: &[u8]) -> Result<Counts, Refusal>
    ensures { result ≡ verdict_of l.now mac.now body.now }
{
    match body::judge(body) {
        Ok(counts) if same(&mac::of_body(l, body), mac) => Ok(counts),
        _ => Err(Refusal::Body),
    }
}

// Refused, nothing of the body stays.
pub fn settle(from: Decrypted, mac: &[u8], compressions: u64, body: &mut [u8]) -> Reading
    ensures { Settles from mac.now compressions body.old body.new result }
{
    match judged(body, &from.keys.l, mac) {
        Ok(counts) => Reading {
            outcome: Ok(Opened {
                keys: from.keys,
                counts,
            }),
            compressions,
            blocks: from.blocks,
        },
        Err(x) => {
            zero(body);
            refused(x, compressions, from.blocks)
        }
    }
}
