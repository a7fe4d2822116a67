ghost use Rattle.std.specs.Prelude.{◌≡◌, ℕ, List, ◌++◌};
ghost use Rattle.std.specs.Option.{option_map, option_to_list};
ghost use Rattle.node.specs.declared.address.NodeAddress.{NodeAddress as Address};
ghost use Rattle.resp.specs.Value.{Values};
ghost use Rattle.slot_map.specs.Answer.{named as answer_named, host as answer_host, port as answer_port, node as answer_node, nodes as answer_nodes, served};
ghost use Rattle.slot_map.specs.Elements.{Come};
ghost use Rattle.slot_map.specs.Front.{Front, Serves};
ghost use Rattle.slot_map.specs.Range.{range_of};

use super::SlotReader;
use super::elements::{Elements, array, integer};
use crate::slot_range::{Bounds, SlotRange};
use errors::Refusal;
use node::NodeAddress;
use resp::place::Head;
use resp::token;

// How deep arrays may be nested in a part of a node.
const FIELD: u32 = 5;

// The port at the front of `bytes`.
fn port(bytes: &[u8]) -> Option<u16>
    ensures { Front 5 bytes.now (λ v rest. result ≡ answer_port v) }
{
    u16::try_from(integer(bytes)?.0).ok()
}

// The range with one node more, if the node is usable: the first is the primary.
fn with_node(
    range: Option<SlotRange>,
    bounds: Bounds,
    node: Option<NodeAddress>,
) -> Result<Option<SlotRange>, Refusal>
    ensures { (ns : List Address) → option_map range_of range ≡ served bounds.start bounds.end ns → Serves bounds.start bounds.end (ns ++ option_to_list node) result }
{
    match (range, node) {
        (range, None) => Ok(range),
        (None, Some(primary)) => Ok(Some(SlotRange::new(bounds, primary))),
        (Some(mut range), Some(replica)) => {
            range.push(replica)?;
            Ok(Some(range))
        }
    }
}

impl<'a> SlotReader<'a> {
    // The host that the text names, which may be the one that answered; `?` names none.
    fn named(self, text: &'a [u8]) -> Option<&'a [u8]>
        ensures { option_map (λ x. x.now) result ≡ answer_named self.entry.answering.now text.now }
    {
        match text {
            b"" | b"0.0.0.0" | b"::" => Some(self.answering),
            b"?" => None,
            _ => Some(text),
        }
    }

    // The host at the front of `bytes`.
    fn host(self, bytes: &'a [u8]) -> Option<&'a [u8]>
        ensures { Front 5 bytes.now (λ v rest. option_map (λ x. x.now) result ≡ answer_host self.entry.answering.now v) }
    {
        match token::read(bytes)?.head {
            Head::Bulk(place) => self.named(place.text(bytes)),
            Head::Nil => Some(self.answering),
            _ => None,
        }
    }

    // The address of the node at the front of `bytes`, if the node is usable.
    fn node(self, bytes: &'a [u8]) -> Option<NodeAddress>
        ensures { Front 6 bytes.now (λ v rest. result ≡ answer_node self.entry.answering.now v) }
    {
        let mut fields = array(bytes, FIELD)?;
        if fields.count < 2 {
            return None;
        }
        let host = self.host(fields.next()?.ok()?)?;
        let port = port(fields.next()?.ok()?)?;
        NodeAddress::new(host, port)
    }

    // The range with those of the nodes that are usable.
    pub(super) fn nodes(
        self,
        bounds: Bounds,
        nodes: Elements<'a>,
    ) -> Result<Option<SlotRange>, Refusal>
        ensures { (vs : Values) (rest : List ℕ) → Come 6 nodes.entry vs rest → Serves bounds.start bounds.end (answer_nodes self.entry.answering.now vs) result }
    {
        let mut range = None;
        for node in nodes {
            range = with_node(range, bounds, self.node(node?))?;
        }
        Ok(range)
    }
}
