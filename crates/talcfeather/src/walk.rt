// One field of a body.
ghost use Rattle.fields.specs.Walk.{walk_number, walk_numbers};
ghost use Rattle.talcfeather.specs.Walk.{TalcWalk};

use super::answer::{Answer, number, told};
use fields::{Cursor, Walked, answers};

impl Answer<9> for Walked {
    ghost number_of = { walk_number };

    ghost numbers_of = { walk_numbers };

    fn number(&self) -> u32 {
        number(self)
    }

    fn numbers(&self) -> [u64; 9] {
        answers::walk_numbers(*self)
    }
}

#[unsafe(no_mangle)]
pub extern "C" fn talc_walk(
    body: &[u8],
    place: usize,
    in_record: bool,
    answer: &mut [u8; 72],
) -> u32
    ensures { TalcWalk body.now place in_record result answer.new }
{
    told(&fields::walk(body, Cursor { place, in_record }), answer)
}
