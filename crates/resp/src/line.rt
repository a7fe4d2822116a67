ghost use Rattle.std.specs.Prelude.{◌≡◌, ◌+◌, ◌<◌, ◌≤◌, length, position, IfSome};
ghost use Rattle.std.specs.List.{list_all};
ghost use Rattle.resp.specs.Line.{breaks, plain, ended, above, loud, FirstBreak, line as line_of};
ghost use Rattle.resp.specs.Place.{cut};

use memchr::memchr2;

// Up to here a text is looked at in small blocks, and behind it in wide ones.
const NEAR: usize = 128;

// Whether CR LF stands at the front.
pub(crate) fn is_ended(bytes: &[u8]) -> bool
    ensures { result ≡ ended bytes.now }
{
    matches!(bytes, [b'\r', b'\n', ..])
}

// Where the first CR or LF stands, by a look at each byte.
fn near_break(bytes: &[u8]) -> Option<usize>
    ensures { result ≡ position breaks bytes.now }
{
    bytes.iter().position(|b| *b == b'\r' || *b == b'\n')
}

// The same by vectors, and not inlined, so that a short line stays short code.
#[inline(never)]
fn far_break(bytes: &[u8]) -> Option<usize>
    ensures { FirstBreak bytes.now result }
{
    memchr2(b'\r', b'\n', bytes)
}

// The same, near or far: most lines are short, and vectors alone take longer there. A number has no more than
// 20 digits.
fn first_break(bytes: &[u8]) -> Option<usize>
    ensures { FirstBreak bytes.now result }
{
    let (near, far) = bytes.split_at(bytes.len().min(32));
    if let Some(n) = near_break(near) {
        return Some(n);
    }
    Some(near.len() + far_break(far)?)
}

// Whether all bytes are above CR, so that none is CR or LF. A fold, which takes them at once: `all` would end early.
fn is_quiet<const N: usize>(block: &[u8; N]) -> bool
    ensures { result ≡ list_all above block.now }
{
    block.iter().fold(true, |quiet, b| quiet & (*b > b'\r'))
}

// Which is the first block that is not.
fn loud_block<const N: usize>(blocks: &[[u8; N]]) -> Option<usize>
    requires { (0 < N) × (N ≤ 64) }
    ensures { result ≡ position loud blocks.now }
{
    blocks.iter().position(
        |block| -> bool
            ensures { result ≡ loud block.now }
        { !is_quiet(block) },
    )
}

// How many bytes at the front, in whole blocks, are quiet.
fn quiet_len<const N: usize>(bytes: &[u8]) -> usize
    requires { (0 < N) × (N ≤ 64) }
    ensures within { result ≤ length bytes.now }
    ensures quiet { result ≤ plain bytes.now }
{
    let (blocks, _) = bytes.as_chunks::<N>();
    N * loud_block(blocks).unwrap_or(blocks.len())
}

// The same for many bytes, in wide blocks first.
#[inline(never)]
fn far_quiet_len(bytes: &[u8]) -> usize
    ensures within { result ≤ length bytes.now }
    ensures quiet { result ≤ plain bytes.now }
{
    let wide = quiet_len::<64>(bytes);
    wide + quiet_len::<16>(&bytes[wide..])
}

// The same, near or far.
fn text_quiet_len(bytes: &[u8]) -> usize
    ensures within { result ≤ length bytes.now }
    ensures quiet { result ≤ plain bytes.now }
{
    let (near, far) = bytes.split_at(bytes.len().min(NEAR));
    let quiet = quiet_len::<16>(near);
    if quiet < NEAR {
        return quiet;
    }
    quiet + far_quiet_len(far)
}

// Where the first CR or LF stands in a text, which is mostly longer than a number, and may be long.
fn text_break(bytes: &[u8]) -> Option<usize>
    ensures { FirstBreak bytes.now result }
{
    let quiet = text_quiet_len(bytes);
    Some(quiet + first_break(&bytes[quiet..])?)
}

// The line whose text ends where the first break stands, if CR LF stands there.
fn closed(bytes: &[u8], n: usize) -> Option<usize>
    requires { (n < length bytes.now) × (n ≡ plain bytes.now) }
    ensures within { IfSome result (λ n. n + 2 ≤ length bytes.now) }
    ensures value { cut bytes.now result ≡ line_of bytes.now }
{
    is_ended(&bytes[n..]).then_some(n)
}

// The line at the front: the length of its text, behind which CR LF stands.
pub(crate) fn line(bytes: &[u8]) -> Option<usize>
    ensures within { IfSome result (λ n. n + 2 ≤ length bytes.now) }
    ensures value { cut bytes.now result ≡ line_of bytes.now }
{
    closed(bytes, first_break(bytes)?)
}

// The same for a text.
pub(crate) fn text_line(bytes: &[u8]) -> Option<usize>
    ensures within { IfSome result (λ n. n + 2 ≤ length bytes.now) }
    ensures value { cut bytes.now result ≡ line_of bytes.now }
{
    closed(bytes, text_break(bytes)?)
}
