// The four tables of g, one for each byte of a word. t0 and t1 are the tables of q0 and q1, and s is the vector S.
ghost use Rattle.std.specs.Prelude.{◌≡◌};
ghost use Rattle.words.specs.Table.{at};
ghost use Rattle.twofish.specs.Tabled.{entry as entry_of, filled, schedule_of};

use super::Schedule;
use super::field::column;
use super::key::{box_key, subkeys, y};
use super::q::tables;

// Entry x of table j; a j past 3 counts as 3.
pub(crate) fn entry(t0: &[u8; 256], t1: &[u8; 256], s: &[u8; 16], j: usize, x: u8) -> u32
    ensures { result ≡ entry_of (at t0.now) (at t1.now) s.now j x }
{
    column(j, y(t0, t1, s, j, x))
}

// Table j of the four.
pub fn fill(t0: &[u8; 256], t1: &[u8; 256], s: &[u8; 16], j: usize) -> [u32; 256]
    ensures { result ≡ filled (at t0.now) (at t1.now) s.now j }
{
    // An array made empty and filled, as document 02 has it.
    let mut r = [0u32; 256];
    for x in 0..256 {
        r[x] = entry(t0, t1, s, j, x as u8);
    }
    r
}

impl Schedule {
    pub fn new(key: &[u8; 32]) -> Schedule
        ensures { result ≡ schedule_of key.now }
    {
        let (t0, t1) = tables();
        let s = box_key(key);
        Schedule {
            g: [
                fill(&t0, &t1, &s, 0),
                fill(&t0, &t1, &s, 1),
                fill(&t0, &t1, &s, 2),
                fill(&t0, &t1, &s, 3),
            ],
            k: subkeys(&t0, &t1, key),
        }
    }
}
