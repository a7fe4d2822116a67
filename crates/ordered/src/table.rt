ghost use Rattle.std.specs.Prelude.{◌≡◌, true};
ghost use Rattle.ordered.specs.Rows.{row_of};
ghost use Rattle.ordered.specs.Table.{ascending};

use crate::entry::Entry;
use crate::row::Row;
use std::alloc::AllocError;

mod methods;

// At most `N` entries, ascending by their keys. No derived equality: it would read the places behind them.
pub struct Table<E: Entry, const N: usize> {
    row: Row<E, N>,
    ghost ascends: { ascending E.Entry.keyed E.Key.Key.ranks (row_of row) ≡ true },
}

// By hand: over a ghost field `Clone` is not derived where a type is a parameter.
impl<E: Entry, const N: usize> Clone for Table<E, N> {
    ghost is_clone = { λ t u. u ≡ t };

    ghost is_infallible = { λ _. Unit {0} };

    fn clone(&self) -> Result<Table<E, N>, AllocError> {
        Ok(Table { row: self.row })
    }
}

impl<E: Entry, const N: usize> Copy for Table<E, N> {}
