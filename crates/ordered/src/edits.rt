ghost use Rattle.std.specs.Prelude.{◌≡◌, ◌<◌, ◌≤◌, length};
ghost use Rattle.ordered.specs.Edits.{Table, Inserted, Removed};
ghost use Rattle.ordered.specs.Moves.{moved_up, moved_down};

use crate::entry::Entry;
use crate::search::find;

// All places of a table are taken.
#[derive(Clone, Copy, Debug, PartialEq, Eq)]
pub struct Full;

// The entries from `at` up to below `end`, one place up.
// By hand, as below: the library's `copy_within` makes an archive for C need `memmove`.
fn move_up<E: Copy>(entries: &mut [E], at: usize, end: usize)
    requires { (at ≤ end) × (end < length entries.old) }
    ensures { entries.new ≡ moved_up at end entries.old }
{
    for i in (at..end).rev() {
        entries[i + 1] = entries[i];
    }
}

// The entries behind `at` up to `end`, one place down.
fn move_down<E: Copy>(entries: &mut [E], at: usize, end: usize)
    requires { (at ≤ end) × (end < length entries.old) }
    ensures { entries.new ≡ moved_down at end entries.old }
{
    for i in at..end {
        entries[i] = entries[i + 1];
    }
}

// The first `count` entries are the table. The entry comes into its place, or into that of the one that
// has its key, which is handed out.
// `entries` and `count` stay apart: lent memory holds no struct of ours.
pub fn insert<E: Entry>(entries: &mut [E], count: &mut usize, entry: E) -> Result<Option<E>, Full>
    ensures within { count.old ≤ length entries.old → count.new ≤ length entries.old }
    ensures inserted { Table E.Entry.keyed E.Key.Key.ranks entries.old count.old → Inserted E.Entry.keyed E.Key.Key.ranks entry entries.old count.old entries.new count.new result }
{
    let n = (*count).min(entries.len());
    match find(&entries[..n], entry.key()) {
        Ok(at) => {
            let replaced = entries[at];
            entries[at] = entry;
            Ok(Some(replaced))
        }
        Err(gap) => {
            if n == entries.len() {
                return Err(Full);
            }
            move_up(entries, gap, n);
            entries[gap] = entry;
            *count = n + 1;
            Ok(None)
        }
    }
}

// The entry with the key comes out of the table. The last place of the table keeps what it held.
pub fn remove<E: Entry>(entries: &mut [E], count: &mut usize, key: &E::Key) -> Option<E>
    ensures within { count.old ≤ length entries.old → count.new ≤ length entries.old }
    ensures removed { Table E.Entry.keyed E.Key.Key.ranks entries.old count.old → Removed E.Entry.keyed E.Key.Key.ranks key.now entries.old count.old entries.new count.new result }
{
    let n = (*count).min(entries.len());
    let at = find(&entries[..n], key).ok()?;
    let removed = entries[at];
    move_down(entries, at, n - 1);
    *count = n - 1;
    Some(removed)
}
