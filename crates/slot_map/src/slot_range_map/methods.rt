ghost use Rattle.std.specs.Prelude.{◌≡◌, []};
ghost use Rattle.ordered.specs.Tables.{table_of as entries_of};
ghost use Rattle.std.specs.Option.{option_map};
ghost use Rattle.slot_map.specs.Range.{range_of};
ghost use Rattle.slot_map.specs.Table.{covering};
ghost use Rattle.slot_map.specs.Tables.{ranges_of, Put, Reaching};

use super::SlotRangeMap;
use crate::slot_range::{Bounds, SlotRange};
use errors::Refusal;
use node::NodeAddress;
use ordered::Table;

impl SlotRangeMap {
    pub(crate) fn new() -> SlotRangeMap
        ensures { ranges_of result ≡ [] }
    {
        let filler = SlotRange::new(Bounds { start: 0, end: 0 }, NodeAddress::unknown());
        SlotRangeMap {
            ranges: Table::new(filler),
        }
    }

    // The range comes into its place, or into that of the one that has its end.
    pub(crate) fn insert(&mut self, range: SlotRange) -> Result<(), Refusal>
        ensures { Put (range_of range) self.old self.new result }
    {
        self.ranges.insert(range).map_err(|_| Refusal::SlotTable)?;
        Ok(())
    }

    // The ranges, ascending by their ends.
    pub(crate) fn as_slice(&self) -> &[SlotRange]
        ensures { result.now ≡ entries_of self.now.ranges }
    {
        self.ranges.as_slice()
    }

    // Where the first range stands that ends at or above the slot.
    fn first_reaching(&self, slot: u16) -> usize
        ensures { Reaching slot (entries_of self.now.ranges) result }
    {
        self.ranges.find(&slot).unwrap_or_else(|at| at)
    }

    // The range that covers the slot.
    pub(crate) fn get(&self, slot: u16) -> Option<&SlotRange>
        ensures { option_map (λ x. range_of x.now) result ≡ covering slot (ranges_of self.now) }
    {
        let at = self.first_reaching(slot);
        self.as_slice()
            .get(at)
            .filter(|range| range.start() <= slot)
    }
}
