// The archive's version, by which a program sees that its header is of another.
ghost use Rattle.std.specs.Prelude.{◌≡◌};
ghost use Rattle.talcfeather.specs.Version.{version};

#[unsafe(no_mangle)]
pub extern "C" fn talc_version() -> u32
    ensures { result ≡ version }
{
    5
}
