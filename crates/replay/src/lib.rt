// Late edits replayed: traces taken into a lent state, and the standing of a login in it.
#![tactic(auto)]

pub mod answers;
mod entry;
mod pass;
mod table;

ghost use Rattle.std.specs.Prelude.{◌≡◌, true};
ghost use Rattle.replay.specs.State.{is_state};
ghost use Rattle.replay.specs.Calls.{Replays, Stands};

#[derive(Clone, Copy, Debug, PartialEq, Eq)]
pub enum ReplayRefusal {
    // The number of the first record at fault.
    Record(usize),
    NotAState,
}

#[derive(Clone, Copy, Debug, PartialEq, Eq)]
pub struct NotAState;

// With the latest time of a cancel and of a reissue, where one has come.
#[derive(Clone, Copy, Debug, PartialEq, Eq)]
pub struct Login {
    pub cancelled: bool,
    pub cancel: Option<u32>,
    pub reissue: Option<u32>,
}

// All records go in, or none does.
fn whole(state: &mut table::State, trace: &[u8]) -> Result<(), ReplayRefusal>
    requires { is_state state.old ≡ true }
    ensures { Replays state.old trace.now result state.new }
{
    match pass::reserve(state, trace) {
        Ok(()) => {
            pass::enter(state, trace);
            Ok(())
        }
        Err(n) => {
            pass::sweep(state);
            Err(ReplayRefusal::Record(n))
        }
    }
}

// The records of a trace into a state. Refused, no byte of it changes.
pub fn replay(state: &mut [u8], trace: &[u8]) -> Result<(), ReplayRefusal>
    ensures { Replays state.old trace.now result state.new }
{
    if !table::is_state(state) {
        return Err(ReplayRefusal::NotAState);
    }
    whole(state.as_mut_array().unwrap(), trace)
}

// How the login stands, as the state has it.
#[tactic(auto, using(crate::proofs::Says::stands_not, crate::proofs::Says::stands_at, crate::proofs::Places::found_place))]
pub fn standing(state: &[u8], uuid: &[u8; 16]) -> Result<Login, NotAState>
    ensures { Stands state.now uuid.now result }
{
    let Some(state) = state.as_array() else {
        return Err(NotAState);
    };
    match table::place(state, uuid) {
        Some(i) => entry::told(table::entry(state, i)),
        None => Ok(Login {
            cancelled: false,
            cancel: None,
            reissue: None,
        }),
    }
}
