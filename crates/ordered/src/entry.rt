ghost use Rattle.std.specs.Prelude.{◌≡◌};
ghost use Rattle.std.specs.declared.cmp.Ordering.{Ordering as Rank};
ghost use Rattle.ordered.specs.Total.{Total};

use std::cmp::Ordering;

// What a table is ordered by: keys with a total order, which each type of keys proves.
pub trait Key {
    ghost ranks: { Self → Self → Rank };

    ghost total: { Total ranks };

    fn compare(&self, other: &Self) -> Ordering
        ensures { result ≡ ranks self.now other.now };
}

// What a table holds: an entry has a key.
pub trait Entry: Copy {
    type Key: Key;

    ghost keyed: { Self → Self.Key };

    fn key(&self) -> &Self::Key
        ensures { result.now ≡ keyed self.now };
}
