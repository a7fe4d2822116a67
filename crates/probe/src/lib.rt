// The reader of RESP2 and the slot table for a caller that wants plain numbers, such as the benchmarks.
//
// It promises the length of the value at the front of some bytes, the size of the table that a slot answer
// gives, and what lookups in it come to, on any bytes; it allocates nothing and keeps nothing between calls.
// To read a value's parts is left to the crate `resp`, and what C calls to `probe_c`.
#![tactic(auto)]

ghost use Rattle.std.specs.Prelude.{◌≡◌, None};
ghost use Rattle.probe.specs.Length.{length_read};
ghost use Rattle.resp.specs.Reading.{value};

mod slots;

use resp::value;
pub use slots::{slots_found, slots_read};

// How many bytes the one value at the front of `bytes` takes, with arrays nested at most `depth`
// deep; 0, which is no value's length, where there is none.
pub fn resp_value_len(bytes: &[u8], depth: u32) -> usize
    ensures value { result ≡ length_read depth bytes.now }
    ensures absent { result ≡ 0 → value depth bytes.now ≡ None }
{
    // 0 in place of None: probe_c exports this to C.
    value::read(bytes, depth).map_or(0, |walk| walk.len)
}
