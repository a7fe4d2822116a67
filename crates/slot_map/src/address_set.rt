use node::NodeAddress;
use ordered::Table;

mod methods;

pub(crate) use methods::all_unique_addresses;

// The most addresses that a table may name.
pub(crate) const MOST_ADDRESSES: usize = 64;

// Addresses, each once, ascending.
#[derive(Clone, Copy)]
pub struct AddressSet {
    addresses: Table<NodeAddress, MOST_ADDRESSES>,
}
