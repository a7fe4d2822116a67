ghost use Rattle.ordered.specs.Orders.{numbers_total};
ghost use Rattle.std.specs.Ordering.{nat_cmp};

use crate::entry::Key;
use std::cmp::Ordering;

impl Key for u16 {
    ghost ranks = { nat_cmp };

    ghost total = { numbers_total };

    fn compare(&self, other: &u16) -> Ordering {
        self.cmp(other)
    }
}
