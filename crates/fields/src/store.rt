// Appending a field: its length, type, data and fill go into the part of the buffer that it takes.
ghost use Rattle.std.specs.Prelude.{◌≡◌, [], ◌∷◌, ◌++◌, ◌+◌, length};
ghost use Rattle.words.specs.Numbers.{bytes_low};
ghost use Rattle.fields.specs.Stored.{stored, bytes_of};
ghost use Rattle.fields.specs.Append.{append_of, buffer_after};

use crate::{end_with_data, fill_for, misplaced};
use words::slices::copy;

// No field may end behind it.
const LONGEST_BODY: usize = 4194096;

// Why a field was refused, with the numbers of refusal.
#[derive(Clone, Copy, Debug, PartialEq, Eq)]
pub enum AppendRefusal {
    Misplaced = 11,
    EndWithData = 13,
    BadFill = 12,
    NoRoom = 3,
}

impl From<AppendRefusal> for u32 {
    ghost use Rattle.fields.specs.Append.{append_refusal_number};

    ghost from_gives = { λ refusal n. n ≡ append_refusal_number refusal };

    fn from(refusal: AppendRefusal) -> u32 {
        refusal as u32
    }
}

// A field's length and type, as they are stored.
#[tactic(auto, using(words::proofs::NumberLaws::four_low))]
fn head(len: usize, kind: u8) -> [u8; 5]
    ensures { result ≡ bytes_low 4 len ++ (kind ∷ []) }
{
    let [a, b, c, d, ..] = len.to_le_bytes();
    [a, b, c, d, kind]
}

// Fills the part that a field takes.
fn write(part: &mut [u8], kind: u8, content: &[u8], fill: &[u8])
    requires { length part.old ≡ 5 + length content.now + length fill.now }
    ensures { part.new ≡ bytes_of (stored kind content.now fill.now) }
{
    let (start, rest) = part.split_at_mut(5);
    let (middle, end) = rest.split_at_mut(content.len());
    start.copy_from_slice(&head(content.len(), kind));
    copy(middle, content);
    copy(end, fill);
}

// A field at a place of the buffer, and the next place; refused, nothing changes. Type, data and fill come apart, as in the C call talc_append: a struct of
// the three would be made for this call alone.
#[tactic(auto, unfolding(crate::specs::Append::append_of))]
pub fn append(
    buf: &mut [u8],
    place: usize,
    kind: u8,
    content: &[u8],
    fill: &[u8],
) -> Result<usize, AppendRefusal>
    ensures answer { result ≡ append_of buf.old place (stored kind content.now fill.now) }
    ensures memory { buf.new ≡ buffer_after result buf.old place (stored kind content.now fill.now) }
{
    let n = content.len();
    if misplaced(buf, place) {
        return Err(AppendRefusal::Misplaced);
    }
    if end_with_data(kind, n) {
        return Err(AppendRefusal::EndWithData);
    }
    if fill.len() != fill_for(n) {
        return Err(AppendRefusal::BadFill);
    }
    let room = 5 + n + fill.len();
    if buf.len() - place < room || LONGEST_BODY < place + room {
        return Err(AppendRefusal::NoRoom);
    }
    let end = place + room;
    write(&mut buf[place..end], kind, content, fill);
    Ok(end)
}
