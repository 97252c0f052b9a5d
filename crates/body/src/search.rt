// The search for a record with a UUID: field by field, from the body's start to the field that decides.
ghost use Rattle.std.specs.Prelude.{◌≡◌, ◌+◌, ◌^◌, ◌<◌, ◌≤◌};
ghost use Rattle.fields.specs.Step.{start as start_of};
ghost use Rattle.body.specs.Find.{is_uuid, is_match};
ghost use Rattle.body.specs.Search.{at_record, visit_of, searched_on};

use super::{Found, Place};
use fields::{Cursor, Taken, Uuid, Value};

// How far a search has come: the record that it is in, and how many fields were visited.
#[derive(Clone, Copy, Default)]
pub struct Progress {
    pub at: Place,
    pub visited: usize,
}

// Whether these are the 16 bytes of the UUID.
#[tactic(auto, using(crate::proofs::UuidValue::uuid_value))]
fn is_uuid(d: &[u8], uuid: Uuid) -> bool
    ensures { result ≡ is_uuid d.now uuid.low uuid.high }
{
    fields::value::value_of(true, 0x01, d) == Value::Uuid(uuid)
}

// Whether a field of this type with these data is the UUID, and in a record. The two apart, as `Find.antt`'s `is_match` has them.
fn is_match(in_record: bool, kind: u8, d: &[u8], uuid: Uuid) -> bool
    ensures { result ≡ is_match uuid.low uuid.high in_record kind d.now }
{
    in_record && kind == 0x01 && is_uuid(d, uuid)
}

impl Progress {
    // One field more, which does not decide. Behind an END the next record starts.
    fn visit(self, in_record: bool, field: Taken) -> Progress
        requires few { self.at.number ≤ self.visited }
        requires small { self.visited + 1 < 2 ^ 64 }
        ensures { result ≡ visit_of self in_record field.kind field.next.place }
    {
        let visited = self.visited + 1;
        if field.kind == 0xff {
            let at = Place {
                number: self.at.number + usize::from(in_record),
                place: field.next.place,
            };
            Progress { at, visited }
        } else {
            Progress { visited, ..self }
        }
    }
}

// The search on from a cursor: to the count that it is handed it adds one for each field.
fn seek_on(body: &[u8], from: Cursor, so_far: Progress, uuid: Uuid) -> Found
    requires few { so_far.at.number ≤ so_far.visited }
    requires small { so_far.visited ≤ from.place }
    ensures { result ≡ searched_on uuid.low uuid.high so_far from body.now }
{
    let mut c = from;
    let mut x = so_far;
    while let Ok(Some(field)) = fields::step(body, c) {
        let start = c.place + 5;
        let end = start + field.len;
        if is_match(c.in_record, field.kind, &body[start..end], uuid) {
            return Found {
                sought: Ok(Some(x.at)),
                visited: x.visited + 1,
            };
        }
        x = x.visit(c.in_record, field);
        c = field.next;
    }
    Found {
        sought: Ok(None),
        visited: x.visited,
    }
}

// The first record with the UUID, among the fields that the walk takes.
pub fn seek(body: &[u8], uuid: Uuid) -> Found
    ensures { result ≡ searched_on uuid.low uuid.high (at_record 0 0 0) start_of body.now }
{
    seek_on(body, fields::start(), Progress::default(), uuid)
}
