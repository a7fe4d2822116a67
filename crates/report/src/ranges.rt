ghost use Rattle.std.specs.Prelude.{◌≡◌, [], ◌∷◌, ◌++◌, length, take, Some, map, OnErr};
ghost use Rattle.report.specs.Ranges.{node_word, range_line, range_lines, entry_ranges};
ghost use Rattle.report.specs.Shown.{Added};
ghost use Rattle.report.specs.Words.{spaced};
ghost use Rattle.slot_map.specs.Range.{range_of};

use crate::words::Address;
use node::NodeAddress;
use slot_map::{SlotRange, parse_slots};
use std::alloc::{AllocError, Global};
use std::fmt;
use tape::Kind;

// Nodes, each behind a blank.
#[derive(Clone, Copy, Debug, PartialEq, Eq)]
struct Nodes<'a>(&'a [NodeAddress]);

impl fmt::Display for Nodes<'_> {
    ghost output = { λ nodes. Some (spaced (map node_word nodes.0.now)) };

    fn fmt<W: fmt::Write>(&self, f: &mut fmt::Formatter<W>) -> fmt::Result {
        for node in self.0 {
            write!(f, " {}", Address::from(node))?;
        }
        Ok(())
    }
}

// `range START END PRIMARY REPLICA ..`
#[derive(Clone, Copy)]
struct RangeLine<'a>(&'a SlotRange);

impl fmt::Display for RangeLine<'_> {
    ghost output = { λ line. Some (range_line (range_of line.0.now)) };

    fn fmt<W: fmt::Write>(&self, f: &mut fmt::Formatter<W>) -> fmt::Result {
        let start = self.0.start();
        let end = self.0.end();
        let primary = Address::from(self.0.primary());
        let replicas = Nodes(self.0.replicas());
        write!(f, "range {start} {end} {primary}{replicas}")
    }
}

// The line of one range more; if memory fails, nothing is added.
fn add_line(out: &mut Vec<u8>, heap: Global, range: &SlotRange) -> Result<(), AllocError>
    ensures added { Added (range_line (range_of range.now) ++ (10 ∷ [])) out.old.items out.new.items result }
    ensures same { OnErr result (out.new.items ≡ out.old.items) }
{
    let mut line = String::new(heap);
    writeln!(line, "{}", RangeLine(range))?;
    out.extend_from_slice(line.as_bytes())
}

// The lines of all ranges; if memory fails, as many as there was room for.
fn add_lines(out: &mut Vec<u8>, heap: Global, ranges: &[SlotRange]) -> Result<(), AllocError>
    ensures added { Added (range_lines (map range_of ranges.now)) out.old.items out.new.items result }
    ensures kept { take (length out.old.items) out.new.items ≡ out.old.items }
{
    for range in ranges {
        add_line(out, heap, range)?;
    }
    Ok(())
}

// The ranges of the slot table that the entry's bytes give, a line each. A tape does not say which host
// answered: `-` stands for it.
pub fn entry_ranges(
    out: &mut Vec<u8>,
    heap: Global,
    kind: Kind,
    bytes: &[u8],
) -> Result<(), AllocError>
    ensures added { Added (entry_ranges kind bytes.now) out.old.items out.new.items result }
    ensures same { OnErr result (out.new.items ≡ out.old.items) }
{
    let Kind::Answer = kind else {
        return Ok(());
    };
    let Ok(slots) = parse_slots(bytes, b"-") else {
        return Ok(());
    };
    let len = out.len();
    let added = add_lines(out, heap, slots.ranges());
    if added.is_err() {
        // Some lines may have had room: a failure of memory adds nothing.
        out.truncate(len);
    }
    added
}
