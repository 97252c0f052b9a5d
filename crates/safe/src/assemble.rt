// Laying out a file whose values have passed the early tests.
ghost use Rattle.std.specs.Prelude.{◌≡◌, ◌++◌, ◌+◌, ◌≤◌, length, take, drop};
ghost use Rattle.words.specs.Slices.{zeros};
ghost use Rattle.file.specs.Description.{wrapped};
ghost use Rattle.safe.specs.V3.{v3};
ghost use Rattle.safe.specs.Answers.{answer_number};
ghost use Rattle.safe.specs.Laying.{Headed, Blank, Laid};

use super::Refusal;
use file::{first_marker, marker};
use stretch::Stretcher;
use words::slices::zero;

// What a file is written under.
#[derive(Clone, Copy)]
pub struct Values<'a> {
    pub passphrase: &'a [u8],
    pub salt: &'a [u8; 32],
    pub iter: u32,
    pub k: &'a [u8; 32],
    pub l: &'a [u8; 32],
    pub iv: &'a [u8; 16],
}

// `part` into `output` from `at` on.
fn lay(output: &mut [u8], at: usize, part: &[u8])
    requires { at + length part.now ≤ length output.old }
    ensures { output.new
        ≡ take at output.old ++ (part.now ++ drop (at + length part.now) output.old) }
{
    output[at..at + part.len()].copy_from_slice(part);
}

// The two keys, side by side under P'.
fn wrap(key: &[u8; 32], k: &[u8; 32], l: &[u8; 32]) -> [u8; 64]
    ensures { (result ≡ wrapped v3 key.now k.now l.now) × (length result ≡ 64) }
{
    let mut w = [0u8; 64];
    lay(&mut w, 0, k);
    lay(&mut w, 32, l);
    chain::ecb_encrypt(key, &mut w);
    w
}

// Everything before the body: 152 bytes.
fn head(v: &Values, output: &mut [u8])
    requires { (output.old ≡ zeros (length output.old)) × (152 ≤ length output.old) }
    ensures { Headed v.now (length output.old) output.new }
{
    let Values {
        passphrase,
        salt,
        iter,
        k,
        l,
        iv,
    } = *v;
    let s = Stretcher::start(passphrase, salt).stretched(iter);
    lay(output, 0, b"PWS3");
    lay(output, 4, salt);
    lay(output, 36, &iter.to_le_bytes());
    lay(output, 40, &s.step().key());
    lay(output, 72, &wrap(&s.key(), k, l));
    lay(output, 136, iv);
}

pub fn file(v: &Values, body: &[u8], output: &mut [u8]) -> Result<(), Refusal>
    requires { Blank body.now output.old }
    ensures { Laid v.now body.now (length output.old) (answer_number result) output.new }
{
    head(v, output);
    let Values { k, l, iv, .. } = *v;
    let e = 152 + body.len();
    chain::cbc_encrypt(k, iv, body, &mut output[152..e]);
    if first_marker(&output[152..e]).is_some() {
        zero(output);
        return Err(Refusal::Block);
    }
    lay(output, e, &marker());
    lay(output, e + 16, &mac::of_body(l, body));
    Ok(())
}
