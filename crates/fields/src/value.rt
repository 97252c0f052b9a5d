// What the data of a field stands for.
ghost use Rattle.std.specs.Prelude.{◌≡◌, length};
ghost use Rattle.fields.specs.Value.{uuid_in, header_shape, record_shape, shaped_of, stamp_of, value_of};

use crate::stamp::old_stamp;
use words::numbers::{wide_at, word_at};

// How the data of a field of some type is to be read: Word and Half are numbers of 4 and 2 bytes.
#[derive(Clone, Copy, Debug, PartialEq, Eq)]
pub enum Shape {
    Uuid,
    Time,
    Word,
    Half,
    Flag,
    Text,
    Opaque,
}

// The halves of a UUID: its bytes 0 to 7 and 8 to 15.
#[derive(Clone, Copy, Debug, PartialEq, Eq)]
pub struct Uuid {
    pub low: u64,
    pub high: u64,
}

impl Uuid {
    // The UUID of 16 bytes.
    pub fn read(d: &[u8]) -> Uuid
        requires { length d.now ≡ 16 }
        ensures { result ≡ uuid_in d.now }
    {
        Uuid {
            low: wide_at(d, 0),
            high: wide_at(d, 8),
        }
    }
}

// BadText has the number of bytes that are right.
#[derive(Clone, Copy, Debug, PartialEq, Eq)]
pub enum Value {
    Empty,
    End,
    Uuid(Uuid),
    Time(u32),
    Number(u32),
    Flag(bool),
    Text,
    BadText(usize),
    Misshapen,
    Opaque,
}

#[tactic(auto, unfolding(crate::specs::Value::header_shape))]
fn header_shape(kind: u8) -> Shape
    ensures { result ≡ header_shape kind }
{
    match kind {
        0x01 => Shape::Uuid,
        0x04 | 0x13 => Shape::Time,
        0x00 => Shape::Half,
        0x02 | 0x03 | 0x05..=0x0b | 0x0f..=0x11 => Shape::Text,
        _ => Shape::Opaque,
    }
}

#[tactic(auto, unfolding(crate::specs::Value::record_shape))]
fn record_shape(kind: u8) -> Shape
    ensures { result ≡ record_shape kind }
{
    match kind {
        0x01 => Shape::Uuid,
        0x07..=0x0a | 0x0c => Shape::Time,
        0x11 | 0x19 => Shape::Word,
        0x13 | 0x17 => Shape::Half,
        0x15 => Shape::Flag,
        0x02..=0x06 | 0x0d..=0x10 | 0x12 | 0x14 | 0x16 | 0x18 | 0x1c..=0x20 => Shape::Text,
        _ => Shape::Opaque,
    }
}

fn textual(d: &[u8]) -> Value
    ensures { result ≡ shaped_of Shape.Text d.now }
{
    match text::goes_wrong(d) {
        None => Value::Text,
        Some(n) => Value::BadText(n),
    }
}

// The value of data that is neither empty nor an END's.
#[tactic(auto, using(words::proofs::Places::whole_two), unfolding(words::specs::Numbers::number_low))]
fn shaped(s: Shape, d: &[u8]) -> Value
    ensures { result ≡ shaped_of s d.now }
{
    match (s, d.len()) {
        (Shape::Uuid, 16) => Value::Uuid(Uuid::read(d)),
        (Shape::Time, 4) => Value::Time(word_at(d, 0)),
        (Shape::Word, 4) => Value::Number(word_at(d, 0)),
        (Shape::Half, 2) => Value::Number(u32::from(u16::from_le_bytes([d[0], d[1]]))),
        (Shape::Flag, 1) => Value::Flag(d[0] != 0),
        (Shape::Text, _) => textual(d),
        (Shape::Opaque, _) => Value::Opaque,
        _ => Value::Misshapen,
    }
}

// The value of an old save stamp: hex digits, the highest first.
#[tactic(auto, using(crate::proofs::Stamps::stamp_small))]
fn stamped(d: &[u8]) -> Value
    requires { length d.now ≡ 8 }
    ensures { result ≡ stamp_of d.now }
{
    if words::hex::all_digits(d) {
        Value::Time(words::hex::number(d))
    } else {
        Value::Misshapen
    }
}

// What data of a type stand for, in a record or in the header. The two come apart, since callers have them so, or as literals (true, 0x01): a struct of them
// would be made for this call alone.
#[tactic(auto, unfolding(crate::specs::Value::value_of))]
pub fn value_of(in_record: bool, kind: u8, d: &[u8]) -> Value
    ensures { result ≡ value_of in_record kind d.now }
{
    if old_stamp(in_record, kind, d.len()) {
        stamped(d)
    } else if kind == 0xff {
        Value::End
    } else if d.is_empty() {
        Value::Empty
    } else if in_record {
        shaped(record_shape(kind), d)
    } else {
        shaped(header_shape(kind), d)
    }
}
