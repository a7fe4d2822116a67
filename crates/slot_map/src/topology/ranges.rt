ghost use Rattle.std.specs.Prelude.{◌≡◌, ◌≤◌, ℕ, List, ◌++◌, None, Ok, MatchOption};
ghost use Rattle.std.specs.Option.{option_map, option_to_list};
ghost use Rattle.resp.specs.Value.{Value};
ghost use Rattle.slot_map.specs.Answer.{slot as answer_slot, range as answer_range, ranges as answer_ranges};
ghost use Rattle.slot_map.specs.Elements.{Stand, Heads};
ghost use Rattle.slot_map.specs.Front.{Front, Ranged, NoRange};
ghost use Rattle.slot_map.specs.Range.{Range, range_of};
ghost use Rattle.slot_map.specs.Tables.{Listed, Gathered};

use super::SlotReader;
use super::elements::{Elements, array};
use crate::slot_range::{Bounds, SlotRange};
use crate::slot_range_map::{MOST_RANGES, SlotRangeMap};
use errors::Refusal;

// How deep arrays may be nested in an item of an answer, and in a node of it.
const ITEM: u32 = 7;

const NODE: u32 = 6;

// A slot's number modulo 65,536.
fn slot_number(z: i64) -> u16
    ensures { result ≡ answer_slot z }
{
    z.rem_euclid(65536) as u16
}

// The bounds of the range that has these elements, and its nodes.
fn parts(mut elements: Elements<'_>) -> Option<(Bounds, Elements<'_>)>
    ensures { (v : Value) (rest : List ℕ) → Stand 6 elements.entry rest v → MatchOption result (NoRange v) (λ p. Heads p.0.start p.0.end p.1 rest v) }
{
    // Too few are told by their number, before any of them is read.
    if elements.count < 3 {
        return None;
    }
    let start = slot_number(elements.next_integer()?);
    let end = slot_number(elements.next_integer()?);
    Some((Bounds { start, end }, elements))
}

// One range more, if there is one, behind `listed` others. The answer is how many there are now.
fn list(slots: &mut SlotRangeMap, listed: usize, range: Option<SlotRange>) -> Result<usize, Refusal>
    ensures { (rs : List Range) → Listed rs slots.old (Ok listed) → Listed (rs ++ option_to_list (option_map range_of range)) slots.new result }
{
    let Some(range) = range else {
        return Ok(listed);
    };
    if listed >= MOST_RANGES {
        return Err(Refusal::SlotTable);
    }
    slots.insert(range)?;
    Ok(listed + 1)
}

impl<'a> SlotReader<'a> {
    // The range that has these elements, if it is one with a usable node.
    fn range(self, elements: Elements<'a>) -> Result<Option<SlotRange>, Refusal>
        ensures { (v : Value) (rest : List ℕ) → Stand 6 elements.entry rest v → Ranged (answer_range self.entry.answering.now v) result }
    {
        // A match, since under map_or the closure would need clauses of its own.
        match parts(elements) {
            Some((bounds, nodes)) => self.nodes(bounds, nodes),
            None => Ok(None),
        }
    }

    // The ranges of a readable answer, by their ends.
    pub(super) fn ranges(self, answer: &'a [u8]) -> Result<SlotRangeMap, Refusal>
        ensures { Front 8 answer.now (λ v rest. Gathered (answer_ranges self.entry.answering.now v) result) }
    {
        let mut slots = SlotRangeMap::new();
        let Some(items) = array(answer, ITEM) else {
            return Ok(slots);
        };
        let mut listed = 0;
        for item in items {
            let Some(elements) = array(item?, NODE) else {
                return Ok(slots);
            };
            let range = self.range(elements)?;
            listed = list(&mut slots, listed, range)?;
        }
        Ok(slots)
    }
}
