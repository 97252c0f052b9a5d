// The record with a UUID, and how many fields were visited.
ghost use Rattle.body.specs.Find.{find_number};
ghost use Rattle.talcfeather.specs.Find.{find_numbers, number_found, TalcFind};

use super::answer::{Answer, number, told};
use body::{Found, Place};
use fields::Uuid;

impl Answer<4> for Found {
    ghost number_of = { number_found };

    ghost numbers_of = { find_numbers };

    fn number(&self) -> u32 {
        number(&self.sought)
    }

    fn numbers(&self) -> [u64; 4] {
        let visited = self.visited as u64;
        match self.sought {
            Ok(Some(Place { number, place })) => [1, number as u64, place as u64, visited],
            _ => [0, 0, 0, visited],
        }
    }
}

// The UUID is read as a record's field of type 01 is.
#[unsafe(no_mangle)]
pub extern "C" fn talc_find(body: &[u8], uuid: &[u8; 16], answer: &mut [u8; 32]) -> u32
    ensures { TalcFind body.now uuid.now result answer.new }
{
    told(&body::find(body, Uuid::read(uuid)), answer)
}
