ghost use Rattle.std.specs.Prelude.{◌≡◌, []};
ghost use Rattle.slot_map.specs.Range.{range_of, Joined};

use super::{Bounds, SlotRange};
use errors::Refusal;
use node::NodeAddress;
use ordered::Row;

impl SlotRange {
    // A range without replicas.
    pub(crate) fn new(bounds: Bounds, primary: NodeAddress) -> SlotRange
        ensures { range_of result ≡ record { start = bounds.start; end = bounds.end; primary = primary; replicas = [] } }
    {
        SlotRange {
            start: bounds.start,
            end: bounds.end,
            primary,
            replicas: Row::new(primary),
        }
    }

    // One replica more, behind the others.
    pub(crate) fn push(&mut self, replica: NodeAddress) -> Result<(), Refusal>
        ensures { Joined replica self.old self.new result }
    {
        self.replicas.push(replica).map_err(|_| Refusal::SlotTable)
    }

    pub fn start(&self) -> u16
        ensures { result ≡ (range_of self.now).start }
    {
        self.start
    }

    pub fn end(&self) -> u16
        ensures { result ≡ (range_of self.now).end }
    {
        self.end
    }

    pub fn primary(&self) -> &NodeAddress
        ensures { result.now ≡ (range_of self.now).primary }
    {
        &self.primary
    }

    pub fn replicas(&self) -> &[NodeAddress]
        ensures { result.now ≡ (range_of self.now).replicas }
    {
        self.replicas.as_slice()
    }
}
