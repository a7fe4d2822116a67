// RESP2, the protocol's second version, in bytes: one value at the front, commands, and writing.
//
// The reader is proved in both directions against the bytes that stand for a value (specs/Standing.antt):
// what it reads is one, what is one is read, and no bytes have two readings. It makes no copy and goes over
// the bytes once; values are told by kinds and places. What an answer means is left to others.
#![tactic(auto)]

pub mod command;
mod line;
pub mod number;
pub mod place;
#[cfg(test)]
mod tests;
pub mod token;
pub mod value;
pub mod write;
