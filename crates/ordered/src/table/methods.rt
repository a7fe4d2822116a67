ghost use Rattle.std.specs.Prelude.{◌≡◌, ◌≤◌, true, [], length};
ghost use Rattle.ordered.specs.Table.{ascending, Found};
ghost use Rattle.ordered.specs.Tables.{table_of, Put, TakenOut};

use super::Table;
use crate::edits::{Full, insert, remove};
use crate::entry::Entry;
use crate::row::Row;
use crate::search::find;

impl<E: Entry, const N: usize> Table<E, N> {
    // A table without entries. The filler stands in the places that none has taken yet.
    pub fn new(filler: E) -> Table<E, N>
        ensures { table_of result ≡ [] }
    {
        Table {
            row: Row::new(filler),
        }
    }

    // The entries, ascending by their keys.
    pub fn as_slice(&self) -> &[E]
        ensures value { result.now ≡ table_of self.now }
        ensures within { length result.now ≤ N }
        ensures ascends { ascending E.Entry.keyed E.Key.Key.ranks result.now ≡ true }
    {
        self.row.as_slice()
    }

    // Where the key stands in the table, or where it would have to stand.
    pub fn find(&self, key: &E::Key) -> Result<usize, usize>
        ensures { Found E.Entry.keyed E.Key.Key.ranks (table_of self.now) key.now result }
    {
        find(self.as_slice(), key)
    }

    // The entry comes into its place, or into that of the one that has its key, which is handed out.
    pub fn insert(&mut self, entry: E) -> Result<Option<E>, Full>
        ensures { Put entry self.old self.new result }
    {
        insert(&mut self.row.items, &mut self.row.count, entry)
    }

    // The entry with the key comes out of the table.
    pub fn remove(&mut self, key: &E::Key) -> Option<E>
        ensures { TakenOut key.now self.old self.new result }
    {
        remove(&mut self.row.items, &mut self.row.count, key)
    }
}
