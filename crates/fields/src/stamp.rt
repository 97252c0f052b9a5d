// Old save stamps: times of the header in eight bytes, which Password Safe before 3.09 stored as hex digits.
ghost use Rattle.std.specs.Prelude.{◌≡◌};
ghost use Rattle.fields.specs.Value.{old_stamp};

// Whether n bytes of a type are one.
pub fn old_stamp(in_record: bool, kind: u8, n: usize) -> bool
    ensures { result ≡ old_stamp in_record kind n }
{
    !in_record && matches!(kind, 0x04 | 0x13) && n == 8
}
