ghost use Rattle.std.specs.Prelude.{◌≡◌, ◌+◌, ◌≤◌, length, Some, flat_map};
ghost use Rattle.resp.specs.Value.{bulk_string, integer as integer_of, null};
ghost use Rattle.resp.specs.Writing.{bulk_text, integer_text, nil_text, array_text, Written, ReadsBack, Heads};

use itoa::Buffer;

// `text` from `at` on, where there is room for it; the answer is where it ends.
fn copy(out: &mut [u8], at: usize, text: &[u8]) -> usize
    requires { at + length text.now ≤ length out.old }
    ensures { Written text.now at out.old out.new (Some result) }
{
    let end = at + text.len();
    out[at..end].copy_from_slice(text);
    end
}

// The parts of a text from `at` on; without room for all nothing is written. The answer is where the text ends.
// `out` and `at` stay apart: the callers hold both, and lent memory holds no struct of ours.
fn put(out: &mut [u8], at: usize, parts: &[&[u8]]) -> Option<usize>
    ensures { Written (flat_map (λ part. part.now) parts.now) at out.old out.new result }
{
    let mut end = at;
    for part in parts {
        end = end.checked_add(part.len())?;
    }
    if end > out.len() {
        return None;
    }
    let mut to = at;
    for part in parts {
        to = copy(out, to, part);
    }
    Some(end)
}

// Nil from `at` on.
pub fn nil(out: &mut [u8], at: usize) -> Option<usize>
    ensures written { Written nil_text at out.old out.new result }
    ensures back { ReadsBack null nil_text }
{
    put(out, at, &[b"$-1\r\n"])
}

// The head of an array with `count` elements, which are written behind it.
pub fn array(out: &mut [u8], at: usize, count: usize) -> Option<usize>
    ensures written { Written (array_text count) at out.old out.new result }
    ensures back { Heads count }
{
    let mut buffer = Buffer::new();
    let count = buffer.format(count).as_bytes();
    put(out, at, &[b"*", count, b"\r\n"])
}

// An integer from `at` on.
pub fn integer(out: &mut [u8], at: usize, z: i64) -> Option<usize>
    ensures written { Written (integer_text z) at out.old out.new result }
    ensures back { ReadsBack (integer_of z) (integer_text z) }
{
    let mut buffer = Buffer::new();
    let digits = buffer.format(z).as_bytes();
    put(out, at, &[b":", digits, b"\r\n"])
}

// A bulk string from `at` on.
pub fn bulk_string(out: &mut [u8], at: usize, text: &[u8]) -> Option<usize>
    ensures written { Written (bulk_text text.now) at out.old out.new result }
    ensures back { ReadsBack (bulk_string text.now) (bulk_text text.now) }
{
    let mut buffer = Buffer::new();
    let len = buffer.format(text.len()).as_bytes();
    put(out, at, &[b"$", len, b"\r\n", text, b"\r\n"])
}
