// The HMAC of a body: over the data bytes of its fields, in order, as far as the walk takes any.
#![tactic(auto)]

ghost use Rattle.std.specs.Prelude.{◌≡◌};
ghost use Rattle.sha256.specs.Hmac.{hmac_of};
ghost use Rattle.sha256.specs.Running.{MacTakes};
ghost use Rattle.body.specs.Decision.{covered_of};

use sha256::Mac;

// One state, which the data of each field change in place.
#[tactic(auto, using(fields::proofs::Outcomes::data_inside, fields::proofs::Outcomes::forward))]
fn feed(st: &mut Mac, body: &[u8])
    ensures { MacTakes st.old (covered_of body.now) st.new }
{
    let mut c = fields::start();
    while let Ok(Some(field)) = fields::step(body, c) {
        let start = c.place + 5;
        let end = start + field.len;
        st.absorb(&body[start..end]);
        c = field.next;
    }
}

pub fn of_body(l: &[u8; 32], body: &[u8]) -> [u8; 32]
    ensures { result ≡ hmac_of l.now (covered_of body.now) }
{
    let mut st = Mac::start(l);
    feed(&mut st, body);
    st.finish()
}
