// Whether a body is well formed, and its counts.
ghost use Rattle.body.specs.Decision.{judge_number};
ghost use Rattle.talcfeather.specs.Judge.{judge_numbers, TalcJudge};

use super::answer::{Answer, number, told};
use body::{Counts, NotWellFormed};

impl Answer<2> for Result<Counts, NotWellFormed> {
    ghost number_of = { judge_number };

    ghost numbers_of = { judge_numbers };

    fn number(&self) -> u32 {
        number(self)
    }

    fn numbers(&self) -> [u64; 2] {
        match *self {
            Ok(Counts { headers, records }) => [headers as u64, records as u64],
            Err(NotWellFormed) => [0, 0],
        }
    }
}

#[unsafe(no_mangle)]
pub extern "C" fn talc_judge(body: &[u8], answer: &mut [u8; 16]) -> u32
    ensures { TalcJudge body.now result answer.new }
{
    told(&body::judge(body), answer)
}
