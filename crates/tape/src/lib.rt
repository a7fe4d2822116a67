// A tape: recorded answers of a network, as a file of entries.
//
// An entry is its kind (1 byte: 0 answer, 1 dropped, 2 denied, 3 other; any other byte means other), the
// length of its bytes (2 bytes, the lower first), and the bytes. What is cut off is no entry. What an
// entry's bytes mean is left to others.
#![tactic(auto)]

mod entry;

pub use entry::{Entry, Kind};
