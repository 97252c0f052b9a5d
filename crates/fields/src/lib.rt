// The fields of a V3 body: the walk from field to field, and append.
#![tactic(auto)]

pub mod answers;
mod stamp;
pub mod store;
pub mod value;

ghost use Rattle.std.specs.Prelude.{◌≡◌};
ghost use Rattle.fields.specs.Stored.{room_of, fill_of};
ghost use Rattle.fields.specs.Step.{step_of, start as start_of, misplaced, end_with_data};
ghost use Rattle.fields.specs.Walk.{walk_of};

pub use store::{AppendRefusal, append};
use value::value_of;
pub use value::{Uuid, Value};
use words::numbers::word_at;

// Where the walk stands, and whether it is in a record or still in the header.
#[derive(Clone, Copy, Debug, PartialEq, Eq)]
pub struct Cursor {
    pub place: usize,
    pub in_record: bool,
}

// A field: its type, the place of its first length byte, the length of its data, and its value. A type is a byte, here and in what
// others ask of it: any byte is one, C has it so (clause TalcWalk), and the definitions say numbers (header_types, record_types).
#[derive(Clone, Copy, Debug, PartialEq, Eq)]
pub struct Field {
    pub kind: u8,
    pub place: usize,
    pub len: usize,
    pub value: Value,
}

// Why the walk takes no field, with the numbers of refusal.
#[derive(Clone, Copy, Debug, PartialEq, Eq)]
pub enum WalkRefusal {
    Misplaced = 11,
    Broken = 14,
}

impl From<WalkRefusal> for u32 {
    ghost use Rattle.fields.specs.Walk.{walk_refusal_number};

    ghost from_gives = { λ refusal n. n ≡ walk_refusal_number refusal };

    fn from(refusal: WalkRefusal) -> u32 {
        refusal as u32
    }
}

// The field that the walk takes, and the cursor after it; None at the end.
pub type Walked = Result<Option<(Field, Cursor)>, WalkRefusal>;

// What the walk finds at a cursor, without the value: the field's type and the length of its data, and the cursor after it.
// Its data stand 5 bytes behind its place. Callers cut them out themselves: a method would ask each of them to show that the walk took the field.
#[derive(Clone, Copy, Debug, PartialEq, Eq)]
pub struct Taken {
    pub kind: u8,
    pub len: usize,
    pub next: Cursor,
}

// The cursor at a body's start.
pub fn start() -> Cursor
    ensures { result ≡ start_of }
{
    Cursor {
        place: 0,
        in_record: false,
    }
}

// The fill that a field with so many bytes of data needs: 11 bytes of data fill a block, and 27 is 11 + 16.
pub fn fill_for(len: usize) -> usize
    ensures { result ≡ fill_of len }
{
    (27 - len % 16) % 16
}

// The bytes that a field with so many bytes of data takes: whole blocks. By next_multiple_of the walk takes 3 % longer.
pub fn room(len: u32) -> usize
    ensures { result ≡ room_of len }
{
    16 * ((len as usize + 20) / 16)
}

pub fn end_with_data(kind: u8, len: usize) -> bool
    ensures { result ≡ end_with_data kind len }
{
    kind == 0xff && len != 0
}

// No place of a field in such bytes: no multiple of 16, or past their end.
fn misplaced(bytes: &[u8], place: usize) -> bool
    ensures { result ≡ misplaced bytes.now place }
{
    place % 16 != 0 || bytes.len() < place
}

// The walk without the value: it looks at no byte of the data. None is the end.
#[tactic(auto, unfolding(crate::specs::Step::step_of))]
pub fn step(body: &[u8], c: Cursor) -> Result<Option<Taken>, WalkRefusal>
    ensures { result ≡ step_of body.now c }
{
    if misplaced(body, c.place) {
        return Err(WalkRefusal::Misplaced);
    }
    let left = body.len() - c.place;
    if left == 0 {
        return Ok(None);
    }
    if left < 16 {
        return Err(WalkRefusal::Broken);
    }
    let len = word_at(body, c.place);
    let kind = body[c.place + 4];
    let room = room(len);
    let len = len as usize;
    if left < room {
        return Err(WalkRefusal::Broken);
    }
    let in_record = match (kind, len) {
        (0xff, 0) => true,
        (0xff, _) => return Err(WalkRefusal::Broken),
        _ => c.in_record,
    };
    let next = Cursor {
        place: c.place + room,
        in_record,
    };
    Ok(Some(Taken { kind, len, next }))
}

// The field at the cursor, and the cursor after it. None is the end.
#[tactic(auto, using(crate::proofs::Outcomes::data_inside), unfolding(crate::specs::Walk::walk_by))]
pub fn walk(body: &[u8], c: Cursor) -> Walked
    ensures { result ≡ walk_of body.now c }
{
    let Some(Taken { kind, len, next }) = step(body, c)? else {
        return Ok(None);
    };
    let start = c.place + 5;
    let field = Field {
        kind,
        place: c.place,
        len,
        value: value_of(c.in_record, kind, &body[start..start + len]),
    };
    Ok(Some((field, next)))
}
