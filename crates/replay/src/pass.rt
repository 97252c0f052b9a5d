// The two passes over a trace. The first reserves an entry for each UUID that is new, and finds the first record at fault;
// the second can't fail. Where the first finds one, what it reserved is swept away: it went into free entries, so that every
// byte is then as before.
ghost use Rattle.std.specs.Prelude.{◌≡◌, ◌<◌, take};
ghost use Rattle.replay.specs.State.{entry_at, put};
ghost use Rattle.replay.specs.Trace.{count_of};
ghost use Rattle.replay.specs.Replay.{goes_in, with_record, recorded_to};
ghost use Rattle.replay.specs.Waiting.{kept_for, reserved_with, Reserves, swept_at, swept_to, Owned, AllOwned};

use crate::table::State;
use crate::{entry, table};

// The cancel mark of an entry that waits: no replay leaves it.
// A number, as the marks are: there is no memory beside the state.
const WAITING: u64 = 1;

// A free entry is kept for the UUID; a taken one stays as it is.
#[tactic(auto, using(crate::proofs::Entries::put_as_is))]
fn keep(state: &mut State, i: usize, u: &[u8; 16])
    requires { i < 4096 }
    ensures { state.new ≡ put state.old i (kept_for u.now (entry_at state.old i)) }
{
    if entry::cancel(table::entry(state, i)) == 0 {
        table::put(state, i, &entry::laid(u, WAITING, 0));
    }
}

// Whether the record goes in; its UUID then has an entry.
#[tactic(auto, using(crate::proofs::Places::found_place), unfolding(crate::specs::Waiting::with_place))]
fn reserve_one(state: &mut State, r: &[u8; 32]) -> bool
    ensures answer { result ≡ goes_in state.old r.now }
    ensures memory { state.new ≡ reserved_with result state.old r.now }
{
    if !entry::fine(r) {
        return false;
    }
    let uuid = entry::uuid(r);
    match table::place(state, uuid) {
        Some(i) => {
            keep(state, i, uuid);
            true
        }
        None => false,
    }
}

// The error is the number of the first record at fault; those before it go in.
pub fn reserve(state: &mut State, trace: &[u8]) -> Result<(), usize>
    ensures { Reserves state.old trace.now result state.new }
{
    let (records, cut) = trace.as_chunks();
    for (n, r) in records.iter().enumerate() {
        if !reserve_one(state, r) {
            return Err(n);
        }
    }
    if cut.is_empty() {
        Ok(())
    } else {
        Err(records.len())
    }
}

#[tactic(auto, using(crate::proofs::Entries::put_as_is))]
fn sweep_one(state: &mut State, i: usize)
    requires { i < 4096 }
    ensures { state.new ≡ put state.old i (swept_at (entry_at state.old i)) }
{
    if entry::cancel(table::entry(state, i)) == WAITING {
        table::put(state, i, &[0; 32]);
    }
}

// What waits is free again.
pub fn sweep(state: &mut State)
    ensures { state.new ≡ swept_to state.old 4096 }
{
    for i in 0..4096 {
        sweep_one(state, i);
    }
}

#[tactic(auto, using(crate::proofs::Places::found_place), unfolding(crate::specs::Replay::with_record))]
fn enter_one(state: &mut State, r: &[u8; 32])
    requires { Owned state.old (take 16 r.now) }
    ensures { state.new ≡ with_record state.old r.now }
{
    let i = table::place(state, entry::uuid(r)).unwrap();
    let e = entry::noted(table::entry(state, i), r);
    table::put(state, i, &e);
}

// Each record into the entry of its UUID.
pub fn enter(state: &mut State, trace: &[u8])
    requires { AllOwned state.old trace.now }
    ensures { state.new ≡ recorded_to state.old trace.now (count_of trace.now) }
{
    for r in trace.as_chunks().0 {
        enter_one(state, r);
    }
}
