// What an answer comes to at the C boundary: the number that a call returns, and the numbers that it writes.
ghost use Rattle.std.specs.Prelude.{◌≡◌, ℕ, ◌*◌, List, length, MatchResult};
ghost use Rattle.talcfeather.specs.Numbers.{in_bytes};

use super::numbers::store;

// Each answer says its number itself, by `number` where it is a Result: what it is by the definitions, `number_of`, differs from
// type to type. Zeros stand for what is not there, since C has no Option: the clauses of specs/.
pub trait Answer<const N: usize> {
    ghost number_of: { Self → ℕ };

    ghost numbers_of: { Self → List ℕ };

    fn number(&self) -> u32
        ensures { result ≡ number_of self.now };

    fn numbers(&self) -> [u64; N]
        ensures { result ≡ numbers_of self.now };
}

// 0 where nothing is refused.
pub fn number<T, E: Copy + Into<u32>>(r: &Result<T, E>) -> u32
    ensures { MatchResult r.now (λ _. result ≡ 0) (λ e. E.converts e result) }
{
    match r {
        Ok(_) => 0,
        Err(e) => (*e).into(),
    }
}

// The numbers laid into memory, and the number.
pub fn told<const N: usize, A: Answer<N>>(a: &A, memory: &mut [u8]) -> u32
    requires { length memory.old ≡ 8 * N }
    ensures { (result ≡ A.number_of a.now) × (memory.new ≡ in_bytes (A.numbers_of a.now)) }
{
    store(&a.numbers(), memory);
    a.number()
}
