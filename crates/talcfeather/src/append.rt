// One field into a buffer.
ghost use Rattle.fields.specs.Stored.{stored};
ghost use Rattle.fields.specs.Append.{append_number};
ghost use Rattle.talcfeather.specs.Append.{append_numbers, TalcAppend};

use super::answer::{Answer, number, told};
use fields::AppendRefusal;

impl Answer<1> for Result<usize, AppendRefusal> {
    ghost number_of = { append_number };

    ghost numbers_of = { append_numbers };

    fn number(&self) -> u32 {
        number(self)
    }

    fn numbers(&self) -> [u64; 1] {
        match *self {
            Ok(next) => [next as u64],
            Err(_) => [0],
        }
    }
}

#[unsafe(no_mangle)]
pub extern "C" fn talc_append(
    buffer: &mut [u8],
    place: usize,
    kind: u8,
    content: &[u8],
    fill: &[u8],
    next: &mut [u8; 8],
) -> u32
    ensures { TalcAppend buffer.old place (stored kind content.now fill.now)
        result buffer.new next.new }
{
    told(&fields::append(buffer, place, kind, content, fill), next)
}
