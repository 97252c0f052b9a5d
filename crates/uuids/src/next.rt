// The next UUID from a place on: from field to field by the lengths alone, since every batch goes over all later fields again.
ghost use Rattle.uuids.specs.Batches.{Stepping};

use words::numbers::word_at;

// The place of a UUID's 16 bytes: of a field of type 01, with 16 bytes of data. Where no field fits any more, none follows.
// By a place: the next is where the field ends, and no index is counted.
pub fn next_uuid(body: &[u8], from: usize) -> Option<usize>
    ensures { Stepping body.now from result }
{
    let n = body.len();
    let mut at = from;
    while at < n && 16 <= n - at {
        let len = word_at(body, at);
        let room = fields::room(len);
        if n - at < room {
            return None;
        }
        if body[at + 4] == 0x01 && len == 16 {
            return Some(at + 5);
        }
        at += room;
    }
    None
}
