ghost use Rattle.std.specs.Prelude.{◌≡◌, codes};
ghost use Rattle.probe.specs.Found.{size, worth as worth_of, summed, repeated, found_in};
ghost use Rattle.slot_map.specs.Maps.{table_of};
ghost use Rattle.slot_map.specs.Table.{slots as answer_slots};

use slot_map::{SlotMap, parse_slots};

// How many ranges the table of a slot answer has, if `-` answered; the largest number where it is refused.
pub fn slots_read(answer: &[u8]) -> u64
    ensures { result ≡ size (answer_slots (codes "-") answer.now) }
{
    // A number in place of a Result: probe_c exports this to C.
    parse_slots(answer, b"-").map_or(u64::MAX, |map| map.ranges().len() as u64)
}

// The start of the range that covers the slot, and its primary's port.
fn worth(map: &SlotMap, slot: u16) -> u64
    ensures { result ≡ worth_of slot (table_of map.now) }
{
    map.get(slot).map_or(0, |range| {
        u64::from(range.start()) + u64::from(range.primary().port())
    })
}

// The sum with what each of the slots is worth; a slot is two bytes, the lower first.
fn sum(map: &SlotMap, start: u64, slots: &[u8]) -> u64
    ensures { result ≡ summed (table_of map.now) start slots.now }
{
    let (slots, _) = slots.as_chunks();
    slots.iter().fold(start, |sum, slot| {
        sum.wrapping_add(worth(map, u16::from_le_bytes(*slot)))
    })
}

fn sum_rounds(map: &SlotMap, slots: &[u8], rounds: u64) -> u64
    ensures { result ≡ repeated (table_of map.now) slots.now rounds 0 }
{
    (0..rounds).fold(0, |all, _| sum(map, all, slots))
}

// What all the slots are worth in the table of a slot answer, so many times over; 0 where it is refused.
pub fn slots_found(answer: &[u8], slots: &[u8], rounds: u64) -> u64
    ensures { result ≡ found_in slots.now rounds (answer_slots (codes "-") answer.now) }
{
    // 0 in place of a refusal: probe_c exports this to C.
    parse_slots(answer, b"-").map_or(0, |map| sum_rounds(&map, slots, rounds))
}
