// A trace replayed into a state, and the standing of a login in it.
ghost use Rattle.replay.specs.Answers.{replay_number, replay_numbers, standing_number, standing_numbers};
ghost use Rattle.talcfeather.specs.Trace.{TalcReplay, TalcStanding};

use super::answer::{Answer, number, told};
use replay::{Login, NotAState, ReplayRefusal, answers};

impl Answer<1> for Result<(), ReplayRefusal> {
    ghost number_of = { replay_number };

    ghost numbers_of = { replay_numbers };

    fn number(&self) -> u32 {
        number(self)
    }

    fn numbers(&self) -> [u64; 1] {
        answers::replay_numbers(*self)
    }
}

impl Answer<5> for Result<Login, NotAState> {
    ghost number_of = { standing_number };

    ghost numbers_of = { standing_numbers };

    fn number(&self) -> u32 {
        number(self)
    }

    fn numbers(&self) -> [u64; 5] {
        answers::standing_numbers(*self)
    }
}

#[unsafe(no_mangle)]
pub extern "C" fn talc_replay(state: &mut [u8], trace: &[u8], answer: &mut [u8; 8]) -> u32
    ensures { TalcReplay state.old trace.now result state.new answer.new }
{
    told(&replay::replay(state, trace), answer)
}

#[unsafe(no_mangle)]
pub extern "C" fn talc_standing(state: &[u8], uuid: &[u8; 16], answer: &mut [u8; 40]) -> u32
    ensures { TalcStanding state.now uuid.now result answer.new }
{
    told(&replay::standing(state, uuid), answer)
}
