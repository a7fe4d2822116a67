use crate::slot_range::SlotRange;
use ordered::Table;

mod methods;

// The most ranges that a table may have.
pub(crate) const MOST_RANGES: usize = 256;

// Ranges by their ends, which ascend strictly.
#[derive(Clone, Copy)]
pub(crate) struct SlotRangeMap {
    ranges: Table<SlotRange, MOST_RANGES>,
}
