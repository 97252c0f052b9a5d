// The numbers of an answer, none of which C has as an Option: talc_replay and talc_standing, clauses TalcReplay and TalcStanding.
ghost use Rattle.std.specs.Prelude.{◌≡◌};
ghost use Rattle.replay.specs.Answers.{replay_refusal_number, replay_numbers, standing_numbers, latest_numbers};

use crate::{Login, NotAState, ReplayRefusal};

impl From<ReplayRefusal> for u32 {
    ghost from_gives = { λ r n. n ≡ replay_refusal_number r };

    fn from(r: ReplayRefusal) -> u32 {
        match r {
            ReplayRefusal::Record(_) => 16,
            ReplayRefusal::NotAState => 19,
        }
    }
}

impl From<NotAState> for u32 {
    ghost from_gives = { λ _ n. n ≡ 19 };

    fn from(_r: NotAState) -> u32 {
        19
    }
}

pub fn replay_numbers(r: Result<(), ReplayRefusal>) -> [u64; 1]
    ensures { result ≡ replay_numbers r }
{
    match r {
        Err(ReplayRefusal::Record(n)) => [n as u64],
        _ => [0],
    }
}

// 1 and the time, or zeros.
fn latest_numbers(l: Option<u32>) -> [u64; 2]
    ensures { result ≡ latest_numbers l }
{
    match l {
        None => [0, 0],
        Some(time) => [1, u64::from(time)],
    }
}

pub fn standing_numbers(s: Result<Login, NotAState>) -> [u64; 5]
    ensures { result ≡ standing_numbers s }
{
    let Ok(login) = s else {
        return [0; 5];
    };
    let [cancel, cancelled_at] = latest_numbers(login.cancel);
    let [reissue, reissued_at] = latest_numbers(login.reissue);
    [
        u64::from(login.cancelled),
        cancel,
        cancelled_at,
        reissue,
        reissued_at,
    ]
}
