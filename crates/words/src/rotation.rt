// Rotation of a word; a distance counts modulo 32.
ghost use Rattle.std.specs.Prelude.{◌≡◌, ◌%◌};
ghost use Rattle.words.specs.Rotation.{rotate_right, rotate_left};

pub fn right(x: u32, n: u32) -> u32
    ensures { result ≡ rotate_right 32 (n % 32) x }
{
    x.rotate_right(n)
}

pub fn left(x: u32, n: u32) -> u32
    ensures { result ≡ rotate_left 32 (n % 32) x }
{
    x.rotate_left(n)
}
