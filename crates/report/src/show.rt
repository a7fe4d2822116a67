ghost use Rattle.std.specs.Prelude.{◌≡◌, ◌<◌, ◌≤◌, length, Some};
ghost use Rattle.report.specs.Shown.{hex as hex_of, as_itself, all_shown, shown};

use std::{fmt, str};

// The most bytes that are shown at once, and the most that they show as.
const PART: usize = 64;

const ROOM: usize = 3 * PART;

fn hex(n: u8) -> u8
    requires { n < 16 }
    ensures { result ≡ hex_of n }
{
    if n < 10 { b'0' + n } else { b'A' - 10 + n }
}

fn is_itself(b: u8) -> bool
    ensures { result ≡ as_itself b }
{
    b.is_ascii_graphic() && b != b'%'
}

// What the part shows as, written into the room.
fn show_part<'a>(part: &[u8], room: &'a mut [u8; ROOM]) -> &'a str
    requires { length part.now ≤ PART }
    ensures { result.now ≡ all_shown part.now }
{
    let mut len = 0;
    for &b in part {
        if is_itself(b) {
            room[len] = b;
            len += 1;
        } else {
            room[len] = b'%';
            room[len + 1] = hex(b / 16);
            room[len + 2] = hex(b % 16);
            len += 3;
        }
    }
    str::from_utf8(&room[..len]).unwrap()
}

// Bytes, each as a report shows it.
#[derive(Clone, Copy, Debug, PartialEq, Eq)]
pub(crate) struct Bytes<'a>(pub(crate) &'a [u8]);

impl fmt::Display for Bytes<'_> {
    ghost output = { λ s. Some (all_shown s.0.now) };

    fn fmt<W: fmt::Write>(&self, f: &mut fmt::Formatter<W>) -> fmt::Result {
        // In parts: a call of the writer for each byte would cost several times as much.
        let mut room = [0; ROOM];
        for part in self.0.chunks(PART) {
            f.write_str(show_part(part, &mut room))?;
        }
        Ok(())
    }
}

// Bytes as a word of a report, which is never empty.
#[derive(Clone, Copy, Debug, PartialEq, Eq)]
pub(crate) struct Word<'a>(pub(crate) &'a [u8]);

impl fmt::Display for Word<'_> {
    ghost output = { λ w. Some (shown w.0.now) };

    fn fmt<W: fmt::Write>(&self, f: &mut fmt::Formatter<W>) -> fmt::Result {
        if self.0.is_empty() {
            f.write_str("\"\"")
        } else {
            Bytes(self.0).fmt(f)
        }
    }
}
