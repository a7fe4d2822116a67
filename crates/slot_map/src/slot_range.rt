use node::NodeAddress;
use ordered::Row;

mod entry;
mod methods;

// The most replicas that a range may have.
pub(crate) const MOST_REPLICAS: usize = 8;

// The first and the last slot of a range.
#[derive(Clone, Copy, Debug, PartialEq, Eq)]
pub(crate) struct Bounds {
    pub(crate) start: u16,
    pub(crate) end: u16,
}

// A range of slots, both ends included, and the nodes that serve it.
#[derive(Clone, Copy)]
pub struct SlotRange {
    start: u16,
    end: u16,
    primary: NodeAddress,
    replicas: Row<NodeAddress, MOST_REPLICAS>,
}
