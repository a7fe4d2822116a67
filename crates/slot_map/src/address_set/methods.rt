ghost use Rattle.std.specs.Prelude.{◌≡◌, ◌≤◌, [], ◌∷◌, map, length};
ghost use Rattle.slot_map.specs.Range.{range_of};
ghost use Rattle.slot_map.specs.Sets.{set_of, Gains, Collected};
ghost use Rattle.slot_map.specs.Table.{wanted};

use super::AddressSet;
use crate::slot_range::SlotRange;
use errors::Refusal;
use node::NodeAddress;
use ordered::Table;

impl AddressSet {
    fn new() -> AddressSet
        ensures { set_of result ≡ [] }
    {
        AddressSet {
            addresses: Table::new(NodeAddress::unknown()),
        }
    }

    // The addresses, ascending.
    pub fn as_slice(&self) -> &[NodeAddress]
        ensures value { result.now ≡ set_of self.now }
        ensures within { length result.now ≤ 64 }
    {
        self.addresses.as_slice()
    }

    fn insert(&mut self, address: NodeAddress) -> Result<(), Refusal>
        ensures { Gains (address ∷ []) self.old self.new result }
    {
        self.addresses
            .insert(address)
            .map_err(|_| Refusal::SlotTable)?;
        Ok(())
    }

    fn extend(&mut self, addresses: &[NodeAddress]) -> Result<(), Refusal>
        ensures { Gains addresses.now self.old self.new result }
    {
        for address in addresses {
            self.insert(*address)?;
        }
        Ok(())
    }

    fn insert_range(&mut self, range: &SlotRange, only_primaries: bool) -> Result<(), Refusal>
        ensures { Gains (wanted only_primaries (range_of range.now)) self.old self.new result }
    {
        self.insert(*range.primary())?;
        if only_primaries {
            return Ok(());
        }
        self.extend(range.replicas())
    }
}

// The addresses that the ranges name, of primaries alone or of all nodes.
// A flag, as the carried-over crate has it: a closure would say no more than the one test.
pub(crate) fn all_unique_addresses(
    ranges: &[SlotRange],
    only_primaries: bool,
) -> Result<AddressSet, Refusal>
    ensures { Collected only_primaries (map range_of ranges.now) result }
{
    let mut set = AddressSet::new();
    for range in ranges {
        set.insert_range(range, only_primaries)?;
    }
    Ok(set)
}
