// Numbers in bytes.
ghost use Rattle.std.specs.Prelude.{◌≡◌, [], ◌∷◌, ◌+◌, ◌*◌, ◌%◌, ◌<◌, ◌≤◌, ◌^◌, length, take, drop};
ghost use Rattle.words.specs.Numbers.{number_low, number_high, byte_of};

// The word of four bytes, the lowest first. Two of std's conversions, this and the next, each under its own definition.
pub fn low(a: u8, b: u8, c: u8, d: u8) -> u32
    ensures { result ≡ number_low (a ∷ b ∷ c ∷ d ∷ []) }
{
    u32::from_le_bytes([a, b, c, d])
}

// The word of four bytes, the highest first.
pub fn high(a: u8, b: u8, c: u8, d: u8) -> u32
    ensures { result ≡ number_high (a ∷ b ∷ c ∷ d ∷ []) }
{
    u32::from_be_bytes([a, b, c, d])
}

// The word at place p, the lowest byte first.
pub fn word_at(s: &[u8], p: usize) -> u32
    requires { p + 4 ≤ length s.now }
    ensures { result ≡ number_low (take 4 (drop p s.now)) }
{
    low(s[p], s[p + 1], s[p + 2], s[p + 3])
}

// The double word at place p, the lowest byte first.
pub fn wide_at(s: &[u8], p: usize) -> u64
    requires { p + 8 ≤ length s.now }
    ensures { result ≡ number_low (take 8 (drop p s.now)) }
{
    joined(word_at(s, p), word_at(s, p + 4))
}

// Two words as one number, the low one first.
pub fn joined(low: u32, high: u32) -> u64
    ensures { result ≡ low + 2 ^ 32 * high }
{
    u64::from(low) + (u64::from(high) << 32)
}

// Byte i % 4 of a word, counted from the lowest.
pub fn byte(x: u32, i: u32) -> u8
    ensures { result ≡ byte_of (i % 4) x }
{
    x.to_le_bytes()[(i % 4) as usize]
}

// The same number: a call brings the bound of its type into the proof.
pub fn bounded(x: u32) -> u32
    ensures { (result ≡ x) × (result < 2 ^ 32) }
{
    x
}
