// The address of a node: a host of 1 to 64 visible ASCII bytes, and a port.
//
// An address has one form only, so that equal addresses are one value. Addresses ascend by the bytes of
// the host and then by the port, and that order is total. A text is read as an address exactly if it is
// a host, a colon and a port, as specs/Readable.antt says. Whether a host can be found or reached is
// left to others. A host is kept as a `ByteKey`, which holds at most 64 bytes without a heap.
#![tactic(auto)]

mod address;
mod byte_key;
mod host;
mod port;
mod split;
#[cfg(test)]
mod tests;

pub use address::{NodeAddress, comparison_is_the_order, equality_is_sameness, order_is_total};
pub use byte_key::ByteKey;
pub use split::{Split, readable_is_the_rule, split_node_address};
