// The days from now to an expiry.
ghost use Rattle.std.specs.Prelude.{◌≡◌, true};
ghost use Rattle.fields.specs.Value.{value_of};
ghost use Rattle.rows.specs.Days.{days_between, days_of};

use crate::column::DAYS;
use fields::Value;
use fields::value::value_of;

// What a row holds in place of days where there is no expiry: its four bytes are the table's format, definition days_of.
const NEVER: u32 = 2147483647;

// In two's complement. Behind now, a day that has begun counts whole.
fn between(expiry: u32, time: u32) -> u32
    ensures { result ≡ days_between expiry time }
{
    let days = (i64::from(expiry) - i64::from(time)).div_euclid(86400);
    (days as i32).cast_unsigned()
}

// From the data of a record's expiry.
#[tactic(auto, unfolding(crate::specs::Days::days_of))]
pub fn days(expiry: &[u8], time: u32) -> u32
    ensures { result ≡ days_of (value_of true 0x0a expiry.now) time }
{
    match value_of(true, DAYS.kind, expiry) {
        Value::Time(at) if at != 0 => between(at, time),
        _ => NEVER,
    }
}
