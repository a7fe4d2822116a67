ghost use Rattle.std.proofs.Common.{rules};
ghost use Rattle.std.specs.Cmp.{partial_order_from_own_ties};
ghost use Rattle.std.specs.Cmp.Rules.{comparing};
ghost use Rattle.std.specs.Ordering.{as_partial_cmp};
ghost use Rattle.node.specs.ByteKeys.{byte_key_same, byte_key_rank};

use super::ByteKey;
use std::cmp::Ordering;

// By hand: derives would order keys likewise, but say it of 64 bytes and a length.
impl PartialEq for ByteKey {
    ghost eq = { byte_key_same };

    ghost laws = { Prim.search (comparing, rules) };

    fn eq(&self, other: &ByteKey) -> bool {
        self.bytes() == other.bytes()
    }
}

impl Eq for ByteKey {
    ghost laws = { Prim.search (comparing, rules) };
}

impl PartialOrd for ByteKey {
    ghost partial_cmp = { as_partial_cmp byte_key_rank };

    ghost laws = { partial_order_from_own_ties (Prim.search (comparing, rules)) (Prim.search (comparing, rules)) };

    fn partial_cmp(&self, other: &ByteKey) -> Option<Ordering> {
        Some(self.cmp(other))
    }
}

// The smaller byte decides where two keys first differ, and a key comes before those that it begins.
impl Ord for ByteKey {
    ghost cmp = { byte_key_rank };

    ghost total = { Prim.search (comparing, rules) };

    ghost matches_partial_cmp = { Prim.search (comparing, rules) };

    ghost matches_eq = { Prim.search (comparing, rules) };

    fn cmp(&self, other: &ByteKey) -> Ordering {
        self.bytes().cmp(&other.bytes())
    }
}
