// The members of a batch in an open table: a UUID takes the first free slot from where its bytes say on.
// Look-ups start in the first 24,576 slots and go on for up to 2,048 more behind them, so that none has to turn round.
// A slot holds 0 where it is free, else its member's block: one more than the blocks from the first member to it. It is no Option,
// so that it has two bytes: the table lies on the stack, and the header says how much of that a call takes.
ghost use Rattle.std.specs.Prelude.{◌≡◌, ◌+◌, ◌≤◌, ◌<◌, length};
ghost use Rattle.uuids.specs.Table.{id_at, start_of, Tells, Slots, Looks, TakenIn};

use words::numbers::{wide_at, word_at};

pub const SLOTS: usize = 26624;

// A member has these 16 bytes; or none has, and this slot is free for them, or no slot is.
#[derive(Clone, Copy)]
pub enum Look {
    Known,
    Free(usize),
    Full,
}

// The 16 bytes at p are those at q. By halves, so that one compare does for most: std's compare of slices goes byte by byte.
fn same_at(s: &[u8], p: usize, q: usize) -> bool
    requires { (p + 16 ≤ length s.now) × (q + 16 ≤ length s.now) }
    ensures { Tells result (id_at s.now p ≡ id_at s.now q) }
{
    wide_at(s, p) == wide_at(s, q) && wide_at(s, p + 8) == wide_at(s, q + 8)
}

// Where the look-up of the 16 bytes at p starts. No proof needs that it spreads; the speed does.
pub fn start(s: &[u8], p: usize) -> usize
    requires { p + 16 ≤ length s.now }
    ensures { (result ≡ start_of (id_at s.now p)) × (result < 24576) }
{
    let x = word_at(s, p)
        .wrapping_add(word_at(s, p + 4).wrapping_mul(3))
        .wrapping_add(word_at(s, p + 8).wrapping_mul(5))
        .wrapping_add(word_at(s, p + 12).wrapping_mul(7))
        .wrapping_mul(2654435769);
    (u64::from(x) * 24576 / 4294967296) as usize
}

// The look-up of the 16 bytes at p in the table of a batch whose first member stands at base.
pub fn look_up(s: &[u8], base: usize, slots: &[u16; SLOTS], p: usize) -> Look
    requires { Slots s.now base slots.now × (p + 16 ≤ length s.now) }
    ensures { Looks s.now base slots.now (id_at s.now p) result }
{
    for i in start(s, p)..SLOTS {
        let v = usize::from(slots[i]);
        if v == 0 {
            return Look::Free(i);
        }
        if same_at(s, base + 16 * (v - 1), p) {
            return Look::Known;
        }
    }
    Look::Full
}

// One member more where the batch is growing, a slot is free and its block fits 16 bits; whether it became one.
// look_up gives no slot from SLOTS on, but nothing says so here.
pub fn take_in(slots: &mut [u16; SLOTS], growing: bool, l: Look, v: usize) -> bool
    ensures { TakenIn slots.old growing l v slots.new result }
{
    match (l, u16::try_from(v)) {
        (Look::Free(i), Ok(v)) if growing && i < SLOTS => {
            slots[i] = v;
            true
        }
        _ => false,
    }
}
