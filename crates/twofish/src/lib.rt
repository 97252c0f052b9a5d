// Twofish with a key of 32 bytes, by its paper. What a key makes is made once, and lent to each call, so that none of it is
// copied in a round.
#![tactic(auto)]

mod beside;
pub mod blocks;
mod cipher;
pub mod field;
pub mod key;
pub mod q;
mod round;
pub mod tables;

// A block: four words.
// By name, as the paper's rounds have them (specs/Cipher.antt).
#[derive(Clone, Copy)]
pub struct Block {
    pub a: u32,
    pub b: u32,
    pub c: u32,
    pub d: u32,
}

// Three blocks side by side, by name too.
#[derive(Clone, Copy)]
pub struct Three {
    pub x: Block,
    pub y: Block,
    pub z: Block,
}

// The four tables of g, one for each byte of a word, and the 40 subkeys. What is done with them is said of any tables and
// any subkeys; those of a key are by `new`.
#[derive(Drop)]
pub struct Schedule {
    pub g: [[u32; 256]; 4],
    pub k: [u32; 40],
}
