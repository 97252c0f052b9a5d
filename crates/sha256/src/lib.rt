// SHA-256 (FIPS 180-2) and HMAC-SHA-256 (RFC 2104).
#![tactic(auto)]

pub mod compression;
pub mod hash;
pub mod hmac;

pub use hash::Running;
pub use hmac::Mac;
