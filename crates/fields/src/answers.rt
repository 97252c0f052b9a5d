// The numbers of an answer of the walk. A number stands for a value's kind, for the end and for a refusal since it does so in C: talc_walk, clause TalcWalk.
ghost use Rattle.std.specs.Prelude.{◌≡◌};
ghost use Rattle.fields.specs.Value.{value_numbers};
ghost use Rattle.fields.specs.Walk.{walk_numbers};

use crate::{Uuid, Value, Walked};

// The kind of a value, and the numbers that it holds.
fn value_numbers(v: Value) -> [u64; 3]
    ensures { result ≡ value_numbers v }
{
    match v {
        Value::Empty => [0, 0, 0],
        Value::End => [1, 0, 0],
        Value::Uuid(Uuid { low, high }) => [2, low, high],
        Value::Time(t) => [3, u64::from(t), 0],
        Value::Number(n) => [4, u64::from(n), 0],
        Value::Flag(b) => [5, u64::from(b), 0],
        Value::Text => [6, 0, 0],
        Value::BadText(n) => [7, n as u64, 0],
        Value::Misshapen => [8, 0, 0],
        Value::Opaque => [9, 0, 0],
    }
}

pub fn walk_numbers(w: Walked) -> [u64; 9]
    ensures { result ≡ walk_numbers w }
{
    let Ok(Some((field, next))) = w else {
        return [0; 9];
    };
    let [kind, a, b] = value_numbers(field.value);
    [
        1,
        next.place as u64,
        u64::from(next.in_record),
        u64::from(field.kind),
        field.place as u64,
        field.len as u64,
        kind,
        a,
        b,
    ]
}
