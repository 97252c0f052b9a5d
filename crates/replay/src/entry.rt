// One entry of 32 bytes, and what a record of 32 bytes brings to it.
ghost use Rattle.std.specs.Prelude.{◌≡◌, ◌<◌, take};
ghost use Rattle.replay.specs.Trace.{event_of, fine as fine_of};
ghost use Rattle.replay.specs.State.{spread_of, entry_of, cancel_of, reissue_of, kind_of, brought_of, is_mark as is_mark_of, noted as noted_of, tidy as tidy_of};
ghost use Rattle.replay.specs.Replay.{latest_of, closed as closed_of, told_of};

use crate::{Login, NotAState};
use words::numbers::{wide_at, word_at};

// A mark is a number, as states in files have it: it only grows, so that the latest of two is the larger. This is that of no time.
const NO_TIME: u64 = 4294967296;

// That of the time 0; the others follow.
const TIME_0: u64 = 8589934592;

// The UUID with which an entry or a record begins.
pub fn uuid(e: &[u8; 32]) -> &[u8; 16]
    ensures { result.now ≡ take 16 e.now }
{
    e.first_chunk().unwrap()
}

pub fn cancel(e: &[u8; 32]) -> u64
    ensures { result ≡ cancel_of e.now }
{
    wide_at(e, 16)
}

pub fn reissue(e: &[u8; 32]) -> u64
    ensures { result ≡ reissue_of e.now }
{
    wide_at(e, 24)
}

// Which entries the look-up of a UUID visits, and in which order, hangs on this. No proof needs that it spreads; the speed does.
#[tactic(auto, unfolding(crate::specs::State::spread_of))]
pub fn spread(u: &[u8; 16]) -> u32
    ensures { result ≡ spread_of u.now }
{
    word_at(u, 0)
        .wrapping_add(word_at(u, 4))
        .wrapping_add(word_at(u, 8))
        .wrapping_add(word_at(u, 12))
        .wrapping_mul(2654435769)
}

#[derive(Clone, Copy)]
pub enum Kind {
    Edit,
    Cancel,
    Reissue,
}

impl Kind {
    fn of(r: &[u8; 32]) -> Option<Kind>
        ensures { result ≡ kind_of (event_of r.now).kind }
    {
        match r[20] {
            1 => Some(Kind::Edit),
            2 => Some(Kind::Cancel),
            3 => Some(Kind::Reissue),
            _ => None,
        }
    }
}

// Of a known kind, with a zero pad.
#[tactic(auto, using(crate::proofs::Fine::kind_known, crate::proofs::Fine::fine_tests))]
pub fn fine(r: &[u8; 32]) -> bool
    ensures { result ≡ fine_of r.now }
{
    Kind::of(r).is_some() && words::slices::same(&r[21..32], &[0; 11])
}

// What a record brings to the mark of cancels, and to that of reissues.
fn brought(r: &[u8; 32]) -> (u64, u64)
    ensures { result ≡ brought_of (event_of r.now) }
{
    let time = TIME_0 + u64::from(word_at(r, 16));
    match Kind::of(r) {
        Some(Kind::Cancel) => (time, NO_TIME),
        Some(Kind::Reissue) => (NO_TIME, time),
        _ => (NO_TIME, NO_TIME),
    }
}

// A UUID and two marks.
#[tactic(auto, using(crate::proofs::Parts::two_long, crate::proofs::Parts::three_parts))]
pub fn laid(u: &[u8; 16], c: u64, d: u64) -> [u8; 32]
    ensures { result ≡ entry_of u.now c d }
{
    let mut e = [0; 32];
    e[0..16].copy_from_slice(u);
    e[16..24].copy_from_slice(&c.to_le_bytes());
    e[24..32].copy_from_slice(&d.to_le_bytes());
    e
}

// The record's UUID, and each mark the larger of what it was and what the record brings.
pub fn noted(e: &[u8; 32], r: &[u8; 32]) -> [u8; 32]
    ensures { result ≡ noted_of e.now r.now }
{
    let (c, d) = brought(r);
    laid(uuid(r), cancel(e).max(c), reissue(e).max(d))
}

fn is_mark(m: u64) -> bool
    ensures { result ≡ is_mark_of m }
{
    m == NO_TIME || (TIME_0 <= m && m < TIME_0 + NO_TIME)
}

// Free or taken, as replaying leaves it.
#[tactic(auto, using(words::proofs::SliceLaws::same_pointwise), unfolding(crate::specs::State::tidy))]
pub fn tidy(e: &[u8; 32]) -> bool
    ensures { result ≡ tidy_of e.now }
{
    let c = cancel(e);
    if c == 0 {
        return *e == [0; 32];
    }
    is_mark(c) && is_mark(reissue(e))
}

fn latest(m: u64) -> Option<u32>
    requires { m < 12884901888 }
    ensures { result ≡ latest_of m }
{
    if m < TIME_0 {
        return None;
    }
    Some((m - TIME_0) as u32)
}

fn closed(c: u64, d: u64) -> bool
    ensures { result ≡ closed_of c d }
{
    TIME_0 <= c && d <= c
}

// What the entry says of its login.
#[tactic(auto, using(crate::proofs::Tidy::tidy_small))]
pub fn told(e: &[u8; 32]) -> Result<Login, NotAState>
    ensures { result ≡ told_of e.now }
{
    if !tidy(e) {
        return Err(NotAState);
    }
    let c = cancel(e);
    let d = reissue(e);
    Ok(Login {
        cancelled: closed(c, d),
        cancel: latest(c),
        reissue: latest(d),
    })
}
