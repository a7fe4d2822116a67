use super::SlotRange;
use ordered::Entry;

// A table of ranges is ordered by their ends.
impl Entry for SlotRange {
    type Key = u16;

    ghost keyed = { λ r. r.end };

    fn key(&self) -> &u16 {
        &self.end
    }
}
