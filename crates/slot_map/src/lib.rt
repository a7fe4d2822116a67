// The client's memory of the cluster: which addresses serve which slots.
//
// A CLUSTER SLOTS answer is read into a table of ranges by their ends, equal to the definitions in specs/ for
// every byte string, or refused; the limits and the order of the table are in its types. A lookup gives the
// range that covers a slot, and the addresses of a table come ascending, each once. Asking for the answer,
// and what becomes of links to addresses that a table no longer names, is left to others.
#![tactic(auto)]

mod address_set;
mod slot_map;
mod slot_range;
mod slot_range_map;
#[cfg(test)]
mod tests;
mod topology;

pub use address_set::AddressSet;
pub use slot_map::{SlotMap, lookup_examples};
pub use slot_range::SlotRange;
pub use topology::parse_slots;
