// One ordered table over a lent slice, for every type of entries that have a key.
//
// The first `count` entries of the slice are the table, and their keys ascend strictly. A search, an
// insertion and a removal say what the table was and becomes, as a map from keys to entries
// (specs/Table.antt and specs/Edits.antt); a table that is full refuses one more, and is as it was.
// Each type of keys proves that its order is total. What the entries mean is left to others.
// A `Table` holds its entries itself, up to a fixed number. A `Row` holds items in the order they came in.
#![tactic(auto)]

mod edits;
mod entry;
mod keys;
mod orders;
mod row;
mod search;
mod table;
#[cfg(test)]
mod tests;

pub use edits::{Full, insert, remove};
pub use entry::{Entry, Key};
pub use node::ByteKey;
pub use orders::key_orders_are_total;
pub use row::Row;
pub use search::find;
pub use table::Table;
