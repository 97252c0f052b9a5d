// The well-formed body: judging it, and finding a record in it. Both go by the one walk; whether a UUID comes twice is asked of uuids.
#![tactic(auto)]

use fields::{Uuid, WalkRefusal};
use tally::Tally;

pub mod records;
mod search;
mod tally;

ghost use Rattle.std.specs.Prelude.{◌≡◌, true};
ghost use Rattle.words.specs.Numbers.{Bytes};
ghost use Rattle.uuids.specs.Uuids.{uuids_from};
ghost use Rattle.body.specs.Decision.{fields_of, version_first, distinct, is_well_formed, not_well_formed, formed_of, judged_of};
ghost use Rattle.body.specs.RecordAt.{record_at};
ghost use Rattle.body.specs.Find.{find_of};
ghost use Rattle.body.specs.Tally.{sections_of};

// How many header fields and records a well-formed body has. ENDs are not counted.
#[derive(Clone, Copy, Debug, Default, PartialEq, Eq)]
pub struct Counts {
    pub headers: usize,
    pub records: usize,
}

// The refusal of a body that is not well formed.
#[derive(Clone, Copy, Debug, PartialEq, Eq)]
pub struct NotWellFormed;

// A record: its number, and the place of its first field.
#[derive(Clone, Copy, Debug, Default, PartialEq, Eq)]
pub struct Place {
    pub number: usize,
    pub place: usize,
}

// What was found, and how many fields were visited.
#[derive(Clone, Copy, Debug, PartialEq, Eq)]
pub struct Found {
    pub sought: Result<Option<Place>, NotWellFormed>,
    pub visited: usize,
}

// The number of the refusal.
impl From<NotWellFormed> for u32 {
    ghost from_gives = { λ _ n. n ≡ 9 };

    fn from(_refusal: NotWellFormed) -> u32 {
        9
    }
}

// In a well-formed body the walk takes every field.
impl From<WalkRefusal> for NotWellFormed {
    ghost from_gives = { λ _ r. r ≡ not_well_formed };

    fn from(_refusal: WalkRefusal) -> NotWellFormed {
        NotWellFormed
    }
}

// The first field is Version, of 2 bytes, and the second of them is 03.
#[tactic(auto, using(crate::proofs::FirstField::version_none))]
fn version_first(body: &[u8]) -> bool
    ensures { result ≡ version_first (fields_of body.now) }
{
    let Ok(Some(first)) = fields::step(body, fields::start()) else {
        return false;
    };
    first.kind == 0x00 && first.len == 2 && body[6] == 0x03
}

// Whether each section ends at an END and is good, with nothing after the last, and the counts.
fn sections(body: &[u8]) -> Result<Counts, NotWellFormed>
    ensures { result ≡ sections_of body.now }
{
    let mut c = fields::start();
    let mut x = Tally::start();
    while let Some(field) = fields::step(body, c)? {
        x = x.after(field);
        c = field.next;
    }
    x.finish()
}

// All clauses but that on the UUIDs of different records.
#[tactic(auto, using(crate::proofs::FirstField::judged_version, crate::proofs::FirstField::judged_none))]
fn judge_fields(body: &[u8]) -> Result<Counts, NotWellFormed>
    ensures { result ≡ formed_of body.now }
{
    if version_first(body) {
        sections(body)
    } else {
        Err(NotWellFormed)
    }
}

// Whether the UUIDs behind the header differ from one another. The header's own is no record's.
#[tactic(auto, using(crate::proofs::Distinct::told))]
fn uuids_differ(body: &[u8]) -> bool
    ensures { result ≡ distinct (uuids_from body.now (record_at body.now 0).next) }
{
    let header = records::record_at(body, 0);
    uuids::repeated(body, header.next).is_none()
}

pub fn judge(body: &[u8]) -> Result<Counts, NotWellFormed>
    ensures { result ≡ judged_of body.now }
{
    let counts = judge_fields(body)?;
    if uuids_differ(body) {
        Ok(counts)
    } else {
        Err(NotWellFormed)
    }
}

#[tactic(auto, using(crate::proofs::Answers::judged_ok))]
pub fn well_formed(body: &[u8]) -> bool
    ensures { result ≡ is_well_formed body.now }
{
    judge(body).is_ok()
}

// The record with this UUID.
pub fn find(body: &[u8], uuid: Uuid) -> Found
    ensures { (result ≡ find_of body.now uuid.low uuid.high) × Bytes body.now }
{
    if well_formed(body) {
        search::seek(body, uuid)
    } else {
        Found {
            sought: Err(NotWellFormed),
            visited: 0,
        }
    }
}
