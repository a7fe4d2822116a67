ghost use Rattle.std.specs.Prelude.{◌≡◌, ℕ};
ghost use Rattle.ordered.specs.Total.{Total};

use crate::entry::Key;
use node::{ByteKey, NodeAddress};

// A theorem, and nothing to run: the keys that `cmp` calls equal are one value, and that is the order by which
// addresses, byte keys and slots go as keys.
#[tactic(auto, using(crate::specs::Orders::addresses_total, crate::specs::Orders::byte_keys_total, crate::specs::Orders::numbers_total))]
pub fn key_orders_are_total()
    ensures addresses { Total ⟦<NodeAddress as Ord>⟧.cmp }
    ensures byte_keys { Total ⟦<ByteKey as Ord>⟧.cmp }
    ensures slots { Total ⟦<u16 as Ord>⟧.cmp }
    ensures addresses_go_by { (a b : NodeAddress) → ⟦<NodeAddress as Key>⟧.ranks a b ≡ ⟦<NodeAddress as Ord>⟧.cmp a b }
    ensures byte_keys_go_by { (a b : ByteKey) → ⟦<ByteKey as Key>⟧.ranks a b ≡ ⟦<ByteKey as Ord>⟧.cmp a b }
    ensures slots_go_by { (a b : ℕ) → ⟦<u16 as Key>⟧.ranks a b ≡ ⟦<u16 as Ord>⟧.cmp a b }
{}
