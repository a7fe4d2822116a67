ghost use Rattle.std.specs.Prelude.{◌≡◌, ◌≤◌, [], length};
ghost use Rattle.ordered.specs.Rows.{row_of, Pushed};

use super::Row;
use crate::edits::Full;

impl<T: Copy, const N: usize> Row<T, N> {
    // A row without items. The filler stands in the places that none has taken yet.
    pub fn new(filler: T) -> Row<T, N>
        ensures { row_of result ≡ [] }
    {
        Row {
            items: [filler; N],
            count: 0,
        }
    }

    pub fn as_slice(&self) -> &[T]
        ensures value { result.now ≡ row_of self.now }
        ensures within { length result.now ≤ N }
    {
        &self.items[..self.count]
    }

    // One item more, behind the others.
    pub fn push(&mut self, item: T) -> Result<(), Full>
        ensures { Pushed item self.old self.new result }
    {
        if self.count == N {
            return Err(Full);
        }
        self.items[self.count] = item;
        self.count += 1;
        Ok(())
    }
}
