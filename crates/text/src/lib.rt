// Text: well-formed UTF-8 with neither a byte order mark at its start nor a 00 at its end; and where one goes wrong.
#![tactic(auto)]

ghost use Rattle.std.specs.Prelude.{◌≡◌, cond};
ghost use Rattle.text.specs.Decision.{first_of, after_byte, whole, formed_start, marked_of, before_final_zero, goes_wrong_of};

// What may come next: a first byte; so many further bytes, the next of them within bounds; nothing any more.
#[derive(Clone, Copy)]
pub enum Utf8 {
    Start,
    More(u8, u8, u8),
    Bad,
}

// What may follow a first byte (RFC 3629, section 4).
fn first(b: u8) -> Utf8
    ensures { result ≡ first_of b }
{
    // by itself, since most bytes are ASCII, and as an arm it would be tested behind the others
    if b < 0x80 {
        return Utf8::Start;
    }
    match b {
        0xc2..=0xdf => Utf8::More(1, 0x80, 0xbf),
        0xe0 => Utf8::More(2, 0xa0, 0xbf),
        0xed => Utf8::More(2, 0x80, 0x9f),
        0xe1..=0xef => Utf8::More(2, 0x80, 0xbf),
        0xf0 => Utf8::More(3, 0x90, 0xbf),
        0xf1..=0xf3 => Utf8::More(3, 0x80, 0xbf),
        0xf4 => Utf8::More(3, 0x80, 0x8f),
        _ => Utf8::Bad,
    }
}

// The next byte: what may come after it.
fn step(u: Utf8, b: u8) -> Utf8
    ensures { result ≡ after_byte u b }
{
    match u {
        Utf8::Start => first(b),
        Utf8::More(_, low, high) if b < low || high < b => Utf8::Bad,
        Utf8::More(0..=1, _, _) => Utf8::Start,
        Utf8::More(left, _, _) => Utf8::More(left - 1, 0x80, 0xbf),
        Utf8::Bad => Utf8::Bad,
    }
}

// This place where a character ends here, else the one before.
fn ended(u: Utf8, here: usize, before: usize) -> usize
    ensures { result ≡ cond (whole u) here before }
{
    match u {
        Utf8::Start => here,
        _ => before,
    }
}

// The number of bytes of the longest well-formed start.
pub fn formed_start(s: &[u8]) -> usize
    ensures { result ≡ formed_start s.now }
{
    let mut u = Utf8::Start;
    let mut n = 0;
    for (i, &b) in s.iter().enumerate() {
        u = step(u, b);
        n = ended(u, i + 1, n);
    }
    n
}

// Starts with the byte order mark EF BB BF.
fn marked(s: &[u8]) -> bool
    ensures { result ≡ marked_of s.now }
{
    s.starts_with(&[0xef, 0xbb, 0xbf])
}

// The bytes before a final 00; all where there is none.
fn before_final_zero(s: &[u8]) -> usize
    ensures { result ≡ before_final_zero s.now }
{
    match s {
        [front @ .., 0] => front.len(),
        _ => s.len(),
    }
}

// Where a text goes wrong, None for nowhere: the smallest number that applies, which says how many bytes before it are right.
#[tactic(auto, unfolding(crate::specs::Decision::goes_wrong_of))]
pub fn goes_wrong(s: &[u8]) -> Option<usize>
    ensures { result ≡ goes_wrong_of s.now }
{
    if marked(s) {
        return Some(0);
    }
    let n = formed_start(s).min(before_final_zero(s));
    (n < s.len()).then_some(n)
}
