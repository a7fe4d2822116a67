ghost use Rattle.std.specs.Prelude.{◌≡◌};
ghost use Rattle.slot_map.specs.Maps.{told};
ghost use Rattle.slot_map.specs.Table.{slots as answer_slots};

use crate::slot_map::SlotMap;
use errors::{DEPTH, Refusal};
use resp::value;

mod elements;
mod nodes;
mod ranges;

// Reads what an answer to CLUSTER SLOTS says, knowing which host answered.
#[derive(Clone, Copy, Debug, PartialEq, Eq)]
struct SlotReader<'a> {
    answering: &'a [u8],
}

// The table that an answer to CLUSTER SLOTS gives, if `answering` is the host that answered.
pub fn parse_slots<'a>(answer: &'a [u8], answering: &'a [u8]) -> Result<SlotMap, Refusal>
    ensures { told result ≡ answer_slots answering.now answer.now }
{
    value::whole(answer, DEPTH).ok_or(Refusal::Unreadable)?;
    let slots = SlotReader { answering }.ranges(answer)?;
    SlotMap::from_slots(slots)
}
