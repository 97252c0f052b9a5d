// The file by offset, as far as it needs no cipher: its sizes, and the marker.
#![tactic(auto)]

ghost use Rattle.std.specs.Prelude.{◌≡◌, ◌/◌, length};
ghost use Rattle.file.specs.Layout.{marker as marker_of, marked_at};
ghost use Rattle.file.specs.Reading.{bad_length};
ghost use Rattle.file.specs.Writing.{bad_body};

use words::slices::same_16;

// Refusal 1 of a file of n bytes.
#[tactic(auto, unfolding(crate::specs::Reading::bad_length))]
pub fn bad_length(n: usize) -> bool
    ensures { result ≡ bad_length n }
{
    n < 232 || 4194304 < n || (n - 200) % 16 != 0
}

// Refusal 1 of a body of n bytes.
#[tactic(auto, unfolding(crate::specs::Writing::bad_body))]
pub fn bad_body(n: usize) -> bool
    ensures { result ≡ bad_body n }
{
    n < 32 || 4194096 < n || n % 16 != 0
}

#[tactic(auto, unfolding(crate::specs::Layout::marker))]
pub fn marker() -> [u8; 16]
    ensures { result ≡ marker_of }
{
    *b"PWS3-EOFPWS3-EOF"
}

// Of the blocks of s, the number of the first that equals the marker.
pub fn first_marker(s: &[u8]) -> Option<usize>
    ensures { result ≡ marked_at (length s.now / 16) s.now }
{
    let m = marker();
    let (blocks, _) = s.as_chunks::<16>();
    blocks.iter().position(|b| same_16(b, &m))
}
