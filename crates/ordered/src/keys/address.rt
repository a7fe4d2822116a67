ghost use Rattle.node.specs.Ranks.{address_rank};
ghost use Rattle.ordered.specs.Orders.{addresses_total};

use crate::entry::{Entry, Key};
use node::NodeAddress;
use std::cmp::Ordering;

impl Key for NodeAddress {
    ghost ranks = { address_rank };

    ghost total = { addresses_total };

    fn compare(&self, other: &NodeAddress) -> Ordering {
        self.cmp(other)
    }
}

// In a set of addresses an entry is its own key.
impl Entry for NodeAddress {
    type Key = NodeAddress;

    ghost keyed = { λ a. a };

    fn key(&self) -> &NodeAddress {
        self
    }
}
