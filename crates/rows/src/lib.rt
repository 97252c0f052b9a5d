// The rows of the login table: one laid, and a table of them taken back.
#![tactic(auto)]

pub mod answers;
pub mod column;
pub mod days;
pub mod fit;

ghost use Rattle.std.specs.Prelude.{◌≡◌};
ghost use Rattle.rows.specs.Login.{row_from};
ghost use Rattle.rows.specs.Import.{login_in, values_of, fine_row, Imports, Shows};

use column::{DAYS, GROUP, TITLE, USER, UUID};
use fields::value::Uuid;

// The bytes of a row.
pub type Row = [u8; 256];

// The number of a row that is refused.
#[derive(Clone, Copy, Debug, PartialEq, Eq)]
pub struct RowRefusal {
    pub number: usize,
}

// Its number for C.
impl From<RowRefusal> for u32 {
    ghost use Rattle.rows.specs.Answers.{row_refusal_number};

    ghost from_gives = { λ refusal n. n ≡ row_refusal_number refusal };

    fn from(_refusal: RowRefusal) -> u32 {
        18
    }
}

// A UUID, the lengths of the texts, and the days as they are stored.
#[derive(Clone, Copy, Debug, PartialEq, Eq)]
pub struct Values {
    pub uuid: Uuid,
    pub title: usize,
    pub user: usize,
    pub group: usize,
    pub days: u32,
}

// A row of these values, each text in its room.
pub fn lay(uuid: &[u8], title: &[u8], user: &[u8], group: &[u8], days: u32) -> Row
    ensures { result ≡ row_from uuid.now title.now user.now group.now days }
{
    let mut row = [0u8; 256];
    UUID.put(&mut row, uuid);
    TITLE.put(&mut row, title);
    USER.put(&mut row, user);
    GROUP.put(&mut row, group);
    DAYS.put(&mut row, &days.to_le_bytes());
    row
}

// Whether a row is one that `lay` makes of texts that fit.
#[tactic(auto, unfolding(crate::specs::Import::fine_row))]
fn fine(row: &Row) -> bool
    ensures { result ≡ fine_row row.now }
{
    TITLE.fine(row) && USER.fine(row) && GROUP.fine(row) && column::all_zero(&row[252..])
}

// The values of a row.
#[tactic(auto, using(crate::proofs::Texts::text_long), unfolding(crate::specs::Import::login_in))]
fn read(row: &Row) -> Values
    ensures { result ≡ values_of (login_in row.now) }
{
    Values {
        uuid: Uuid::read(UUID.of(row)),
        title: column::before_zero(TITLE.of(row)),
        user: column::before_zero(USER.of(row)),
        group: column::before_zero(GROUP.of(row)),
        days: words::numbers::word_at(row, DAYS.place),
    }
}

// How many rows a table has, or the first at fault.
pub fn import(table: &[u8]) -> Result<usize, RowRefusal>
    ensures { Imports table.now result }
{
    let (rows, cut) = table.as_chunks::<256>();
    for (number, row) in rows.iter().enumerate() {
        if !fine(row) {
            return Err(RowRefusal { number });
        }
    }
    if !cut.is_empty() {
        return Err(RowRefusal { number: rows.len() });
    }
    Ok(rows.len())
}

// The values of one row, if the table has it; the others are not looked at.
pub fn row(table: &[u8], number: usize) -> Result<Option<Values>, RowRefusal>
    ensures { Shows table.now number result }
{
    if table.len().div_ceil(256) <= number {
        return Ok(None);
    }
    let (rows, _) = table.as_chunks::<256>();
    match rows.get(number) {
        Some(row) if fine(row) => Ok(Some(read(row))),
        _ => Err(RowRefusal { number }),
    }
}
