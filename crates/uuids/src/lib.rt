// Whether a UUID comes twice: the first one, from a place on, that an earlier one is the same as.
#![tactic(auto)]

use batch::batch;
use next::next_uuid;

mod batch;
mod next;
mod table;

ghost use Rattle.uuids.specs.Uuids.{uuids_from, Repeats};

// Batch by batch: each is tried against all that come later, as far as the best answer so far. The answer is the number of a UUID,
// from 0, among those from the place on; None where no two are the same. The next place is
// where the batch ends: no index is counted.
pub fn repeated(body: &[u8], from: usize) -> Option<usize>
    ensures { Repeats (uuids_from body.now from) result }
{
    let mut best = None;
    let mut at = from;
    let mut number = 0;
    while number < best.unwrap_or(body.len()) {
        let Some(first) = next_uuid(body, at) else {
            break;
        };
        let limit = best.unwrap_or(body.len());
        let x = batch(body, first, number, limit);
        best = x.hit.or(best);
        at = x.next;
        number += x.members;
    }
    best
}
