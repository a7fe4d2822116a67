ghost use Rattle.std.specs.Prelude.{◌≡◌, Some};
ghost use Rattle.tape.specs.Entries.{kind as kind_of, name, entry, told, Within};

use resp::place::Place;
use std::fmt;

// What an entry plays.
#[derive(Clone, Copy, Debug, PartialEq, Eq)]
pub enum Kind {
    Answer,
    Dropped,
    Denied,
    Other,
}

impl From<u8> for Kind {
    ghost from_gives = { λ b k. k ≡ kind_of b };

    fn from(b: u8) -> Kind {
        match b {
            0 => Kind::Answer,
            1 => Kind::Dropped,
            2 => Kind::Denied,
            _ => Kind::Other,
        }
    }
}

impl fmt::Display for Kind {
    ghost output = { λ k. Some (name k) };

    fn fmt<W: fmt::Write>(&self, f: &mut fmt::Formatter<W>) -> fmt::Result {
        f.write_str(match self {
            Kind::Answer => "answer",
            Kind::Dropped => "dropped",
            Kind::Denied => "denied",
            Kind::Other => "other",
        })
    }
}

// An entry at the front of a tape: its kind, the place of its bytes, and how many it takes in all.
#[derive(Clone, Copy, Debug, PartialEq, Eq)]
pub struct Entry {
    pub kind: Kind,
    pub bytes: Place,
    pub len: usize,
}

impl Entry {
    // The entry at the front, unless it is cut off.
    pub fn read(tape: &[u8]) -> Option<Entry>
        ensures within { Within tape.now result }
        ensures value { told tape.now result ≡ entry tape.now }
    {
        let [kind, low, high, body @ ..] = tape else {
            return None;
        };
        let size = usize::from(u16::from_le_bytes([*low, *high]));
        if body.len() < size {
            return None;
        }
        let len = size + 3;
        Some(Entry {
            kind: Kind::from(*kind),
            bytes: Place { start: 3, end: len },
            len,
        })
    }
}
