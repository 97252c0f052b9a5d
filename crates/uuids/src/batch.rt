// One batch: UUIDs from a place on become members, as long as there is room, and every later one is tried against them.
ghost use Rattle.std.specs.Prelude.{◌+◌, ◌≤◌, ◌<◌, length};
ghost use Rattle.uuids.specs.Batches.{NoMembers, Passing};

use super::next::next_uuid;
use super::table::{Look, SLOTS, look_up, start, take_in};

// The first number below the limit whose UUID an earlier member has; the place behind the last member's field; how many members there are.
#[derive(Clone, Copy)]
pub struct Went {
    pub hit: Option<usize>,
    pub next: usize,
    pub members: usize,
}

// The batch that begins with the UUID at base, which has this number. Those from the limit on do not matter: an earlier batch has found a repetition there, or there are none.
// From a UUID's place its field goes on for 27 bytes: the 16, and 11 of fill.
fn pass(body: &[u8], base: usize, number: usize, limit: usize, slots: &mut [u16; SLOTS]) -> Went
    requires { (base + 27 ≤ length body.now) × (number < limit) × NoMembers slots.old }
    ensures { Passing body.now base number limit result }
{
    slots[start(body, base)] = 1;
    let mut at = base + 27;
    let mut growing = true;
    let mut next = at;
    let mut members = 1;
    let mut hit = None;
    for n in number + 1..limit {
        let Some(p) = next_uuid(body, at) else {
            break;
        };
        let l = look_up(body, base, slots, p);
        if let Look::Known = l {
            hit = Some(n);
            break;
        }
        growing = take_in(slots, growing, l, (p - base) / 16 + 1);
        at = p + 27;
        if growing {
            members += 1;
            next = at;
        }
    }
    Went { hit, next, members }
}

// The same. The table is lent, so that it is made in one place only.
pub fn batch(body: &[u8], base: usize, number: usize, limit: usize) -> Went
    requires { (base + 27 ≤ length body.now) × (number < limit) }
    ensures { Passing body.now base number limit result }
{
    pass(body, base, number, limit, &mut [0; SLOTS])
}
