ghost use Rattle.std.specs.Prelude.{◌≡◌, ◌<◌, ◌≤◌, true, length, MatchResult};
ghost use Rattle.ordered.specs.Table.{ascending, Found};

use crate::entry::{Entry, Key};

// Where the key stands in the table, or where it would have to stand.
pub fn find<E: Entry>(table: &[E], key: &E::Key) -> Result<usize, usize>
    ensures within { MatchResult result (λ i. i < length table.now) (λ i. i ≤ length table.now) }
    ensures found { ascending E.Entry.keyed E.Key.Key.ranks table.now ≡ true → Found E.Entry.keyed E.Key.Key.ranks table.now key.now result }
{
    table.binary_search_by(|entry| entry.key().compare(key))
}
