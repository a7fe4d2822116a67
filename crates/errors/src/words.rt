ghost use Rattle.std.specs.Prelude.{◌≡◌, ◌≤◌, ◌==◌, length, drop, position};
ghost use Rattle.std.specs.Char.{is_ascii_whitespace};
ghost use Rattle.resp.specs.Told.{part};
ghost use Rattle.errors.specs.Words.{first_word, behind_word};

use resp::place::Place;

// Where the first blank stands.
pub(crate) fn blank(bytes: &[u8]) -> Option<usize>
    ensures { result ≡ position (λ b. b == 32) bytes.now }
{
    bytes.iter().position(|b| *b == b' ')
}

// Where the first white space stands.
fn white(bytes: &[u8]) -> Option<usize>
    ensures { result ≡ position is_ascii_whitespace bytes.now }
{
    bytes.iter().position(|b| b.is_ascii_whitespace())
}

// The first word from `at` on; it is empty where none is left.
pub(crate) fn word(bytes: &[u8], at: usize) -> Place
    requires { at ≤ length bytes.now }
    ensures after { at ≤ result.start }
    ensures inside { (result.start ≤ result.end) × (result.end ≤ length bytes.now) }
    ensures text { part bytes.now result ≡ first_word (drop at bytes.now) }
    ensures rest { drop result.end bytes.now ≡ behind_word (drop at bytes.now) }
{
    let rest = bytes[at..].trim_ascii_start();
    let start = bytes.len() - rest.len();
    let end = start + white(rest).unwrap_or(rest.len());
    Place { start, end }
}
