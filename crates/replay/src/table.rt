// The entries of a state: whether it is one, and finding a UUID's.
ghost use Rattle.std.specs.Prelude.{◌≡◌, ◌<◌};
ghost use Rattle.replay.specs.State.{is_state, entry_at, put, stops as stops_of, found_in};

use crate::entry;
use words::slices::same_16;

// Bytes, and not 4,096 entries: C lends them so, and files hold them (clause TalcReplay).
pub type State = [u8; 131072];

pub fn is_state(state: &[u8]) -> bool
    ensures { result ≡ is_state state.now }
{
    state.len() == 131072 && state.as_chunks().0.iter().all(entry::tidy)
}

// Entry i. A plain number: callers have it from a loop below 4,096 or from `place`, and a type of its own would be made and
// taken apart at every call.
#[tactic(auto, using(crate::proofs::Chunks::part_in))]
pub fn entry(state: &State, i: usize) -> &[u8; 32]
    requires { i < 4096 }
    ensures { result.now ≡ entry_at state.now i }
{
    &state.as_chunks().0[i]
}

// The entry e in place of entry i. By its range: of a memory that std lends in chunks nothing is known afterwards.
#[tactic(auto, using(crate::proofs::Places::put_is))]
pub fn put(state: &mut State, i: usize, e: &[u8; 32])
    requires { i < 4096 }
    ensures { state.new ≡ put state.old i e.now }
{
    state[32 * i..32 * i + 32].copy_from_slice(e);
}

// The look-up of a UUID ends at entry i.
#[tactic(auto, unfolding(crate::specs::State::stops))]
fn stops(state: &State, uuid: &[u8; 16], i: usize) -> bool
    requires { i < 4096 }
    ensures { result ≡ stops_of state.now uuid.now i }
{
    let e = entry(state, i);
    entry::cancel(e) == 0 || same_16(entry::uuid(e), uuid)
}

// The entry of a UUID, or the free one that it would take.
#[tactic(auto, using(crate::proofs::Places::looks))]
pub fn place(state: &State, uuid: &[u8; 16]) -> Option<usize>
    ensures { result ≡ found_in state.now uuid.now }
{
    let h = entry::spread(uuid) as usize;
    let first = h / 1048576;
    let step = 2 * (h / 16384 % 64) + 1;
    for d in 0..4096 {
        let i = (first + d * step) % 4096;
        if stops(state, uuid, i) {
            return Some(i);
        }
    }
    None
}
