// The numbers of an answer, none of which C has as an Option: talc_import and talc_row, clauses TalcImport and TalcRow.
ghost use Rattle.std.specs.Prelude.{◌≡◌};
ghost use Rattle.rows.specs.Answers.{import_numbers, row_numbers, signed as signed_of};

use crate::{RowRefusal, Values};

pub fn import_numbers(r: Result<usize, RowRefusal>) -> [u64; 2]
    ensures { result ≡ import_numbers r }
{
    match r {
        Ok(count) => [count as u64, 0],
        Err(refusal) => [0, refusal.number as u64],
    }
}

// Two's complement, from 32 bits to 64.
fn signed(d: u32) -> u64
    ensures { result ≡ signed_of d }
{
    i64::from(d.cast_signed()).cast_unsigned()
}

pub fn row_numbers(r: Result<Option<Values>, RowRefusal>) -> [u64; 7]
    ensures { result ≡ row_numbers r }
{
    let Ok(Some(v)) = r else {
        return [0; 7];
    };
    [
        1,
        v.uuid.low,
        v.uuid.high,
        v.title as u64,
        v.user as u64,
        v.group as u64,
        signed(v.days),
    ]
}
