// Hex digits as bytes, and numbers in them.
ghost use Rattle.std.specs.Prelude.{◌≡◌, cond, ltb, Some, None, ◌+◌, ◌*◌, ◌%◌, ◌^◌};
ghost use Rattle.words.specs.Hex.{hex_value, hex_digit, all_digits, hex_number};

// The value of a digit of either case; None of a byte that is no digit.
pub fn value(b: u8) -> Option<u8>
    ensures { result ≡ cond (ltb (hex_value b) 16) (Some (hex_value b)) None }
{
    match b {
        b'0'..=b'9' => Some(b - b'0'),
        b'A'..=b'F' => Some(b - b'A' + 10),
        b'a'..=b'f' => Some(b - b'a' + 10),
        _ => None,
    }
}

// The digit of a value, in lower case; of a greater number, that of its lowest four bits.
pub fn digit(v: u8) -> u8
    ensures { result ≡ hex_digit v }
{
    b"0123456789abcdef"[usize::from(v % 16)]
}

// Whether every byte is a digit.
pub fn all_digits(s: &[u8]) -> bool
    ensures { result ≡ all_digits s.now }
{
    s.iter().all(|&b| value(b).is_some())
}

// A number with one digit more behind it.
fn with_digit(n: u32, v: u8) -> u32
    ensures { result ≡ (16 * n + v) % 2 ^ 32 }
{
    n.wrapping_mul(16).wrapping_add(u32::from(v))
}

// What digits come to, the highest first: modulo 2^32, so that eight of them are told whole. A byte that is no digit counts
// as 16.
pub fn number(s: &[u8]) -> u32
    ensures { result ≡ hex_number s.now % 2 ^ 32 }
{
    s.iter()
        .fold(0, |n, &b| with_digit(n, value(b).unwrap_or(16)))
}
