// A whole file read.
ghost use Rattle.std.specs.Prelude.{◌≡◌, ◌++◌, length};
ghost use Rattle.safe.specs.Answers.{k_given, l_given};
ghost use Rattle.safe.specs.Calls.{number_of};
ghost use Rattle.talcfeather.specs.Read.{numbers_given, TalcRead};

use super::answer::{Answer, number, told};
use body::Counts;
use safe::{Opened, Reading, Refusal};

impl Answer<4> for Reading {
    ghost number_of = { number_of };

    ghost numbers_of = { numbers_given };

    fn number(&self) -> u32 {
        number(&self.outcome)
    }

    fn numbers(&self) -> [u64; 4] {
        match self.counts() {
            Ok(Counts { headers, records }) => [
                headers as u64,
                records as u64,
                self.compressions,
                self.blocks,
            ],
            Err(_) => [0, 0, self.compressions, self.blocks],
        }
    }
}

fn lay(k: &[u8; 32], l: &[u8; 32], answer: &mut [u8])
    requires { length answer.old ≡ 64 }
    ensures { answer.new ≡ k.now ++ l.now }
{
    answer[..32].copy_from_slice(k);
    answer[32..].copy_from_slice(l);
}

// K and L, or zeros.
fn lay_keys(outcome: &Result<Opened, Refusal>, answer: &mut [u8])
    requires { length answer.old ≡ 64 }
    ensures { answer.new ≡ k_given outcome.now ++ l_given outcome.now }
{
    match outcome {
        Ok(opened) => lay(&opened.keys.k, &opened.keys.l, answer),
        Err(_) => answer.fill(0),
    }
}

#[unsafe(no_mangle)]
pub extern "C" fn talc_read(
    file: &[u8],
    passphrase: &[u8],
    ceiling: u32,
    workspace: &mut [u8],
    answer: &mut [u8; 96],
) -> u32
    ensures { TalcRead file.now passphrase.now ceiling workspace.old result workspace.new answer.new }
{
    let r = safe::read(file, passphrase, ceiling, workspace);
    lay_keys(&r.outcome, &mut answer[..64]);
    told(&r, &mut answer[64..])
}
