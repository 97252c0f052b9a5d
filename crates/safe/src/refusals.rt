// The refusals that need no work: 1 to 7 of reading, and 1, 2, 3, 5 and 9 of writing.
ghost use Rattle.std.specs.Prelude.{◌≡◌, not, ◌+◌, ◌-◌, ◌*◌, ◌/◌, ◌≤◌, eqb, length, take, drop};
ghost use Rattle.words.specs.Numbers.{number_low};
ghost use Rattle.file.specs.Layout.{tag, differ, first_marker};
ghost use Rattle.safe.specs.Answers.{answer_number};
ghost use Rattle.safe.specs.Steps.{early_reading, early_writing};

use super::Refusal;
use file::{bad_body, bad_length, first_marker};
use stretch::Stretcher;
use words::numbers::word_at;
use words::slices::same;

// ITER, as it stands in a file.
pub fn iter(file: &[u8]) -> u32
    requires { 40 ≤ length file.now }
    ensures { result ≡ number_low (take 4 (drop 36 file.now)) }
{
    word_at(file, 36)
}

#[tactic(auto, unfolding(file::specs::Layout::tag))]
fn wrong_tag(file: &[u8]) -> bool
    requires { 4 ≤ length file.now }
    ensures { result ≡ differ (take 4 file.now) tag }
{
    !same(&file[..4], b"PWS3")
}

// The first marker from offset 152 on is not right behind the n blocks of the body.
fn wrong_marker(file: &[u8], n: usize) -> bool
    requires { length file.now ≡ 200 + 16 * n }
    ensures { result ≡ not (eqb (first_marker (n + 3) (drop 152 file.now)) n) }
{
    first_marker(&file[152..]) != Some(n)
}

#[tactic(auto, using(std::proofs::lemmas::Bool::Decides::nat_tests, file::proofs::Accepted::good_length), unfolding(file::specs::Reading::early_tests, file::specs::Layout::split, crate::specs::V3::v3))]
pub fn reading(file: &[u8], passphrase: &[u8], ceiling: u32, room: usize) -> Result<(), Refusal>
    ensures { answer_number result ≡ early_reading file.now passphrase.now ceiling room }
{
    if bad_length(file.len()) {
        return Err(Refusal::Length);
    }
    if 1024 < passphrase.len() {
        return Err(Refusal::Passphrase);
    }
    let n = file.len() - 200;
    if room < n {
        return Err(Refusal::Room);
    }
    if wrong_tag(file) {
        return Err(Refusal::Tag);
    }
    let i = iter(file);
    if i < Stretcher::FLOOR {
        return Err(Refusal::Floor);
    }
    if ceiling < i {
        return Err(Refusal::Ceiling);
    }
    if wrong_marker(file, n / 16) {
        return Err(Refusal::Marker);
    }
    Ok(())
}

#[tactic(auto, using(std::proofs::lemmas::Bool::Decides::nat_tests), unfolding(file::specs::Writing::early_write_tests, crate::specs::V3::v3))]
pub fn writing(passphrase: &[u8], iter: u32, body: &[u8], room: usize) -> Result<(), Refusal>
    ensures { answer_number result ≡ early_writing passphrase.now iter body.now room }
{
    if bad_body(body.len()) {
        return Err(Refusal::Length);
    }
    if 1024 < passphrase.len() {
        return Err(Refusal::Passphrase);
    }
    if room < body.len() + 200 {
        return Err(Refusal::Room);
    }
    if iter < Stretcher::FLOOR {
        return Err(Refusal::Floor);
    }
    if !body::well_formed(body) {
        return Err(Refusal::Body);
    }
    Ok(())
}
