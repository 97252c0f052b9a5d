// What a row can't hold.
ghost use Rattle.std.specs.Prelude.{◌≡◌, true};
ghost use Rattle.words.specs.Members.{among};
ghost use Rattle.fields.specs.Value.{value_of};
ghost use Rattle.rows.specs.Fit.{is_bad_text, is_misshapen, unfit as unfit_of};
ghost use Rattle.rows.specs.Plain.{is_plain};

use crate::column::DAYS;
use fields::Value;
use fields::value::value_of;

// Whether every byte is 01 to 7f. `fold` goes over all of them, with no way out, so that it can be made to take many at a time.
fn plain(d: &[u8]) -> bool
    ensures { result ≡ is_plain d.now }
{
    d.iter().fold(true, |all, &b| all & (0 < b) & (b < 0x80))
}

fn is_bad_text(kind: u8, d: &[u8]) -> bool
    ensures { result ≡ is_bad_text (value_of true kind d.now) }
{
    matches!(value_of(true, kind, d), Value::BadText(_))
}

fn has_zero(d: &[u8]) -> bool
    ensures { result ≡ among 0 d.now }
{
    d.contains(&0)
}

// A text that is too long for its room, or BadText, or has a zero byte. Type and room come apart: any room is allowed, and a Column
// has an invariant.
#[tactic(auto, using(crate::proofs::Sevenbit::plain_zero, crate::proofs::Sevenbit::plain_fine), unfolding(crate::specs::Fit::unfit))]
pub fn unfit(kind: u8, room: usize, d: &[u8]) -> bool
    ensures { result ≡ unfit_of kind room d.now }
{
    room < d.len() || !plain(d) && (is_bad_text(kind, d) || has_zero(d))
}

// An expiry that is neither empty nor a time.
pub fn misshapen(d: &[u8]) -> bool
    ensures { result ≡ is_misshapen (value_of true 0x0a d.now) }
{
    matches!(value_of(true, DAYS.kind, d), Value::Misshapen)
}
