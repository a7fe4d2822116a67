ghost use Rattle.std.specs.Prelude.{◌≡◌, true, false, length, nat_le};
ghost use Rattle.slot_map.specs.Table.{addresses};
ghost use Rattle.slot_map.specs.Tables.{ranges_of};

use crate::slot_range_map::SlotRangeMap;

mod methods;

pub use methods::lookup_examples;

// Which addresses serve which slots: at most 256 ranges by their ends, which ascend strictly, each with
// at most 8 replicas, and at most 64 addresses in all.
#[derive(Clone, Copy)]
pub struct SlotMap {
    slots: SlotRangeMap,
    ghost few: { nat_le (length (addresses false (ranges_of slots))) 64 ≡ true },
}
