ghost use Rattle.std.specs.Prelude.{◌≡◌, true, false, [], map};
ghost use Rattle.std.specs.List.{flat_map};
ghost use Rattle.std.specs.Option.{option_map};
ghost use Rattle.slot_map.specs.Distinct.{EachOnce};
ghost use Rattle.slot_map.specs.Examples.{LookupExamples};
ghost use Rattle.slot_map.specs.Maps.{table_of, Limited};
ghost use Rattle.slot_map.specs.Range.{range_of};
ghost use Rattle.slot_map.specs.Sets.{set_of};
ghost use Rattle.slot_map.specs.Table.{covering, wanted, addresses};
ghost use Rattle.slot_map.specs.Tables.{ranges_of};

use super::SlotMap;
use crate::address_set::{AddressSet, all_unique_addresses};
use crate::slot_range::SlotRange;
use crate::slot_range_map::SlotRangeMap;
use errors::Refusal;

impl SlotMap {
    // A table without ranges.
    pub fn new() -> SlotMap
        ensures { table_of result ≡ [] }
    {
        SlotMap {
            slots: SlotRangeMap::new(),
        }
    }

    // The table of these ranges, unless they name too many addresses.
    pub(crate) fn from_slots(slots: SlotRangeMap) -> Result<SlotMap, Refusal>
        ensures { Limited (ranges_of slots) result }
    {
        all_unique_addresses(slots.as_slice(), false)?;
        Ok(SlotMap { slots })
    }

    // The ranges, ascending by their ends.
    pub fn ranges(&self) -> &[SlotRange]
        ensures { map range_of result.now ≡ table_of self.now }
    {
        self.slots.as_slice()
    }

    // The range that covers the slot: the one with the smallest end at or above it, if it starts at or below it.
    pub fn get(&self, slot: u16) -> Option<&SlotRange>
        ensures { option_map (λ x. range_of x.now) result ≡ covering slot (table_of self.now) }
    {
        self.slots.get(slot)
    }

    // A flag, as the carried-over crate has it: a closure would say no more than the one test.
    fn unique_addresses(&self, only_primaries: bool) -> AddressSet
        ensures value { set_of result ≡ addresses only_primaries (table_of self.now) }
        ensures once { EachOnce (flat_map (wanted only_primaries) (table_of self.now)) (set_of result) }
    {
        all_unique_addresses(self.ranges(), only_primaries).unwrap()
    }

    // The addresses of all primaries, under its name in the carried-over crate.
    pub fn addresses_for_all_primaries(&self) -> AddressSet
        ensures value { set_of result ≡ addresses true (table_of self.now) }
        ensures once { EachOnce (flat_map (wanted true) (table_of self.now)) (set_of result) }
    {
        self.unique_addresses(true)
    }

    // The addresses of all primaries and replicas, under its name in the carried-over crate.
    pub fn addresses_for_all_nodes(&self) -> AddressSet
        ensures value { set_of result ≡ addresses false (table_of self.now) }
        ensures once { EachOnce (flat_map (wanted false) (table_of self.now)) (set_of result) }
    {
        self.unique_addresses(false)
    }
}

// A theorem, and nothing to run: the worked examples of lookups.
pub fn lookup_examples()
    ensures { LookupExamples }
{}
