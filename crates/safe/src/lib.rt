// Password Safe V3 files, read and written whole in lent memory.
#![tactic(auto)]

mod assemble;
mod decrypt;
mod open;
mod refusals;
mod settle;

ghost use Rattle.std.specs.Prelude.{◌≡◌, []};
ghost use Rattle.file.specs.Reading.{refused as refused_of};
ghost use Rattle.safe.specs.Answers.{refusal_number, counted, reported};
ghost use Rattle.safe.specs.Calls.{Reads, Writes};

use assemble::Values;
use body::Counts;
use words::slices::zero;

// Why a file is not read, or not written, by document 01's numbers.
#[derive(Clone, Copy, Debug, PartialEq, Eq)]
pub enum Refusal {
    Length = 1,
    Passphrase = 2,
    Room = 3,
    Tag = 4,
    Floor = 5,
    Ceiling = 6,
    Marker = 7,
    Check = 8,
    Body = 9,
    Block = 10,
}

impl From<Refusal> for u32 {
    ghost from_gives = { λ x n. n ≡ refusal_number x };

    fn from(x: Refusal) -> u32 {
        x as u32
    }
}

#[derive(Drop)]
pub struct Keys {
    pub k: [u8; 32],
    pub l: [u8; 32],
}

// What an accepted file gives beside its body: its keys, and how many header fields and records the body has.
#[derive(Drop)]
pub struct Opened {
    pub keys: Keys,
    pub counts: Counts,
}

// The outcome, and the two counts of work.
#[derive(Drop)]
pub struct Reading {
    pub outcome: Result<Opened, Refusal>,
    pub compressions: u64,
    pub blocks: u64,
}

impl Reading {
    // The outcome without the keys, to be copied and compared.
    pub fn counts(&self) -> Result<Counts, Refusal>
        ensures { result ≡ counted self.now.outcome }
    {
        match &self.outcome {
            Ok(opened) => Ok(opened.counts),
            Err(x) => Err(*x),
        }
    }
}

#[tactic(auto, unfolding(crate::specs::Answers::reported, file::specs::Reading::refused))]
fn refused(x: Refusal, compressions: u64, blocks: u64) -> Reading
    ensures { reported result [] ≡ refused_of (refusal_number x) compressions blocks }
{
    Reading {
        outcome: Err(x),
        compressions,
        blocks,
    }
}

// A file read whole. Accepted: the workspace holds the body and zeros after it. Refused: every byte of the workspace is zero.
pub fn read(file: &[u8], passphrase: &[u8], ceiling: u32, workspace: &mut [u8]) -> Reading
    ensures { Reads file.now passphrase.now ceiling workspace.old workspace.new result }
{
    let room = workspace.len();
    zero(workspace);
    match refusals::reading(file, passphrase, ceiling, room) {
        Err(x) => refused(x, 0, 0),
        Ok(()) => open::open(file, passphrase, workspace),
    }
}

// A body written as a file under values that the caller supplies. Done: the output holds the file and zeros after it. Refused: all zero.
// The values come one by one: of arrays behind a struct's references no proof knows that they are bytes, which `Writes` says.
pub fn write(
    passphrase: &[u8],
    salt: &[u8; 32],
    iter: u32,
    k: &[u8; 32],
    l: &[u8; 32],
    iv: &[u8; 16],
    body: &[u8],
    output: &mut [u8],
) -> Result<(), Refusal>
    ensures { Writes passphrase.now salt.now iter k.now l.now iv.now body.now
        output.old output.new result }
{
    let room = output.len();
    zero(output);
    refusals::writing(passphrase, iter, body, room)?;
    let v = Values {
        passphrase,
        salt,
        iter,
        k,
        l,
        iv,
    };
    assemble::file(&v, body, output)
}
