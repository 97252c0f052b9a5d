// The library at the C boundary. include/talcfeather.h describes each call; the bytes of its answer are those of specs/.
// Parameters come one by one, as C passes them.
#![tactic(auto)]

mod answer;
mod append;
mod find;
mod judge;
mod numbers;
mod read;
mod table;
mod trace;
mod version;
mod walk;
mod write;
