ghost use Rattle.node.specs.ByteKeys.{byte_key_rank};
ghost use Rattle.ordered.specs.Orders.{byte_keys_total};

use crate::entry::Key;
use node::ByteKey;
use std::cmp::Ordering;

impl Key for ByteKey {
    ghost ranks = { byte_key_rank };

    ghost total = { byte_keys_total };

    fn compare(&self, other: &ByteKey) -> Ordering {
        self.cmp(other)
    }
}
