// Numbers in an answer's memory: 8 bytes each, the lowest first. By ranges: of a memory that std lends in chunks nothing is known
// afterwards.
ghost use Rattle.std.specs.Prelude.{◌≡◌, ◌*◌, length};
ghost use Rattle.talcfeather.specs.Numbers.{in_bytes};

pub fn store(numbers: &[u64], memory: &mut [u8])
    requires { length memory.old ≡ 8 * length numbers.now }
    ensures { memory.new ≡ in_bytes numbers.now }
{
    for (i, n) in numbers.iter().enumerate() {
        memory[8 * i..8 * i + 8].copy_from_slice(&n.to_le_bytes());
    }
}
