// The one page login table of a body.
#![tactic(auto)]

use body::NotWellFormed;
use body::records::{Firsts, content, record_at};
use rows::Row;
use rows::column::{DAYS, GROUP, TITLE, USER};
use rows::days::days;
use rows::fit::{misshapen, unfit};

pub mod answers;

ghost use Rattle.std.specs.Prelude.{◌≡◌, true, ◌*◌, length};
ghost use Rattle.body.specs.Decision.{is_well_formed};
ghost use Rattle.rows.specs.Login.{row_of};
ghost use Rattle.logins.specs.Export.{body_records, checked_from, table_from, login_at, fault_at, Exports};
ghost use Rattle.logins.specs.declared.ExportRefusal.TheVariants as refusal;

// A record that the table can't hold, by its number, and the type of the field for which it can't.
#[derive(Clone, Copy, Debug, PartialEq, Eq)]
pub struct Fault {
    pub number: usize,
    pub kind: u8,
}

// Why no table was written: the body is not well formed; the table can't hold a record; the output is too short.
#[derive(Clone, Copy, Debug, PartialEq, Eq)]
pub enum ExportRefusal {
    NotWellFormed,
    Faulty(Fault),
    NoRoom,
}

impl From<NotWellFormed> for ExportRefusal {
    ghost from_gives = { λ _ r. r ≡ refusal.NotWellFormed };

    fn from(_x: NotWellFormed) -> ExportRefusal {
        ExportRefusal::NotWellFormed
    }
}

impl From<Fault> for ExportRefusal {
    ghost from_gives = { λ fault r. r ≡ refusal.Faulty fault };

    fn from(fault: Fault) -> ExportRefusal {
        ExportRefusal::Faulty(fault)
    }
}

// Its number for C.
impl From<ExportRefusal> for u32 {
    ghost use Rattle.logins.specs.Answers.{export_refusal_number};

    ghost from_gives = { λ refusal n. n ≡ export_refusal_number refusal };

    fn from(refusal: ExportRefusal) -> u32 {
        match refusal {
            ExportRefusal::NotWellFormed => 9,
            ExportRefusal::Faulty(_) => 18,
            ExportRefusal::NoRoom => 3,
        }
    }
}

// The type of the first field, in the table's order, that it can't hold.
#[tactic(auto, unfolding(crate::specs::Export::fault_at))]
fn fault_in(body: &[u8], firsts: Firsts) -> Option<u8>
    ensures { result ≡ fault_at body.now firsts }
{
    if unfit(TITLE.kind, TITLE.room, content(body, firsts.title)) {
        Some(TITLE.kind)
    } else if unfit(USER.kind, USER.room, content(body, firsts.user)) {
        Some(USER.kind)
    } else if unfit(GROUP.kind, GROUP.room, content(body, firsts.group)) {
        Some(GROUP.kind)
    } else if misshapen(content(body, firsts.expiry)) {
        Some(DAYS.kind)
    } else {
        None
    }
}

// The row of a record, at the given time.
#[tactic(auto, unfolding(crate::specs::Export::login_at))]
fn row_of(body: &[u8], firsts: Firsts, time: u32) -> Row
    ensures { result ≡ row_of (login_at time body.now firsts) }
{
    rows::lay(
        content(body, firsts.uuid),
        content(body, firsts.title),
        content(body, firsts.user),
        content(body, firsts.group),
        days(content(body, firsts.expiry), time),
    )
}

// Whether the table can hold each of so many records. Nothing is written before this is known.
fn check(body: &[u8], count: usize) -> Result<(), Fault>
    requires formed { is_well_formed body.now ≡ true }
    requires all { count ≡ length (body_records body.now) }
    ensures { result ≡ checked_from 0 (body_records body.now) }
{
    let mut next = record_at(body, 0).next;
    for number in 0..count {
        let r = record_at(body, next);
        if let Some(kind) = fault_in(body, r.firsts) {
            return Err(Fault { number, kind });
        }
        next = r.next;
    }
    Ok(())
}

// The row of each record, one after the other, in a table of just this length.
// By ranges: of a memory that std lends in chunks nothing is known afterwards.
fn fill(body: &[u8], time: u32, table: &mut [u8])
    requires formed { is_well_formed body.now ≡ true }
    requires all { length table.old ≡ 256 * length (body_records body.now) }
    ensures { table.new ≡ table_from time (body_records body.now) }
{
    let mut next = record_at(body, 0).next;
    for number in 0..table.len() / 256 {
        let r = record_at(body, next);
        let start = 256 * number;
        let end = start + 256;
        table[start..end].copy_from_slice(&row_of(body, r.firsts, time));
        next = r.next;
    }
}

// The table of a body at the given time, and how many rows it has. Refused, no byte of the output changes.
#[tactic(auto, using(crate::proofs::Answered::judged_formed, crate::proofs::Answered::judged_many))]
pub fn export(body: &[u8], time: u32, output: &mut [u8]) -> Result<usize, ExportRefusal>
    ensures { Exports body.now time output.old result output.new }
{
    let count = body::judge(body)?.records;
    check(body, count)?;
    let room = output.len() / 256;
    if room < count {
        return Err(ExportRefusal::NoRoom);
    }
    fill(body, time, &mut output[..256 * count]);
    Ok(count)
}
