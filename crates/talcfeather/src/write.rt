// A whole file written.
ghost use Rattle.talcfeather.specs.Write.{TalcWrite};

use super::answer::number;

#[unsafe(no_mangle)]
pub extern "C" fn talc_write(
    passphrase: &[u8],
    salt: &[u8; 32],
    iter: u32,
    k: &[u8; 32],
    l: &[u8; 32],
    iv: &[u8; 16],
    body: &[u8],
    output: &mut [u8],
) -> u32
    ensures { TalcWrite passphrase.now salt.now iter k.now l.now iv.now body.now
        output.old result output.new }
{
    let w = safe::write(passphrase, salt, iter, k, l, iv, body, output);
    number(&w)
}
