ghost use Rattle.std.specs.Prelude.{◌≡◌, Some, Decides, IsSomeAnd};
ghost use Rattle.std.proofs.Common.{rules};
ghost use Rattle.std.specs.Cmp.{partial_order_from_own_ties};
ghost use Rattle.std.specs.Cmp.Rules.{comparing};
ghost use Rattle.std.specs.Ordering.{MatchOrdering, as_partial_cmp};
ghost use Rattle.node.specs.Order.{Below, StrictTotal};
ghost use Rattle.node.specs.Ranks.{address_same, address_rank};

use super::NodeAddress;
use std::cmp::Ordering;

// By hand: a derive could not say what `==` and the comparisons of two addresses tell.
impl PartialEq for NodeAddress {
    ghost eq = { address_same };

    ghost laws = { Prim.search (comparing, rules) };

    fn eq(&self, other: &NodeAddress) -> bool
        ensures value { result ≡ address_same self.now other.now }
        ensures same { Decides result (self.now ≡ other.now) }
    {
        self.host() == other.host() && self.port == other.port
    }
}

impl Eq for NodeAddress {
    ghost laws = { Prim.search (comparing, rules) };
}

impl PartialOrd for NodeAddress {
    ghost partial_cmp = { as_partial_cmp address_rank };

    ghost laws = { partial_order_from_own_ties (Prim.search (comparing, rules)) (Prim.search (comparing, rules)) };

    fn partial_cmp(&self, other: &NodeAddress) -> Option<Ordering>
        ensures value { result ≡ Some (address_rank self.now other.now) }
        ensures order { IsSomeAnd result (λ o. MatchOrdering o (Below self.now other.now) (self.now ≡ other.now) (Below other.now self.now)) }
    {
        Some(self.cmp(other))
    }
}

impl Ord for NodeAddress {
    ghost cmp = { address_rank };

    ghost total = { Prim.search (comparing, rules) };

    ghost matches_partial_cmp = { Prim.search (comparing, rules) };

    ghost matches_eq = { Prim.search (comparing, rules) };

    fn cmp(&self, other: &NodeAddress) -> Ordering
        ensures value { result ≡ address_rank self.now other.now }
        ensures order { MatchOrdering result (Below self.now other.now) (self.now ≡ other.now) (Below other.now self.now) }
    {
        let by_host = self.host().cmp(&other.host());
        by_host.then(self.port.cmp(&other.port))
    }
}

// A theorem, and nothing to run: `==` of two addresses tells whether they are the same.
pub fn equality_is_sameness()
    ensures value { (a b : NodeAddress) → ⟦<NodeAddress as PartialEq>⟧.eq a b ≡ address_same a b }
    ensures same { (a b : NodeAddress) → Decides (⟦<NodeAddress as PartialEq>⟧.eq a b) (a ≡ b) }
{}

// A theorem, and nothing to run: `partial_cmp` and `cmp` of two addresses tell which is below.
pub fn comparison_is_the_order()
    ensures partial { (a b : NodeAddress) → ⟦<NodeAddress as PartialOrd>⟧.partial_cmp a b ≡ Some (address_rank a b) }
    ensures value { (a b : NodeAddress) → ⟦<NodeAddress as Ord>⟧.cmp a b ≡ address_rank a b }
    ensures order { (a b : NodeAddress) → MatchOrdering (⟦<NodeAddress as Ord>⟧.cmp a b) (Below a b) (a ≡ b) (Below b a) }
{}

// A theorem, and nothing to run: of any two addresses exactly one is so, that the first is below, that
// they are the same, or that the second is below.
pub fn order_is_total()
    ensures { StrictTotal Below }
{}
