// Words and bytes: what every layer above stands on. Much is std's own, under a contract in the words of the definitions here.
#![tactic(auto)]

pub mod hex;
pub mod numbers;
pub mod rotation;
pub mod slices;
