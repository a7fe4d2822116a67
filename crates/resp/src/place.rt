ghost use Rattle.std.specs.Prelude.{◌≡◌, ℕ, List, ◌-◌, ◌^◌, ◌<◌, length, drop};
ghost use Rattle.resp.specs.Told.{part, further, Inside};

// A part of some bytes: those from `start` up to below `end`.
// Numbers, and no slice: the memory of an answer is written over while its places are still of use.
#[derive(Clone, Copy, Debug, PartialEq, Eq)]
pub struct Place {
    pub start: usize,
    pub end: usize,
}

impl Place {
    // The bytes at the place, as far as there are any.
    pub fn text(self, bytes: &[u8]) -> &[u8]
        ensures { result.now ≡ part bytes.now self }
    {
        let end = self.end.min(bytes.len());
        let start = self.start.min(end);
        &bytes[start..end]
    }

    // The place `by` bytes further on: where it is in bytes that begin there, counted from the front of all.
    pub fn moved(self, by: usize) -> Place
        ensures place { Inside (2 ^ 64 - 1 - by) self → result ≡ further by self }
        ensures text { (bs : List ℕ) → length bs < 2 ^ 64 → part bs result ≡ part (drop by bs) self }
    {
        Place {
            start: self.start.saturating_add(by),
            end: self.end.saturating_add(by),
        }
    }
}

// What stands at the front of some bytes: a value that is whole, or the head of an array.
#[derive(Clone, Copy, Debug, PartialEq, Eq)]
pub enum Head {
    Simple(Place),
    Error(Place),
    Integer(i64),
    Bulk(Place),
    Nil,
    // The number of elements, which stand right behind.
    Array(usize),
}

// A head and the number of bytes that it takes.
#[derive(Clone, Copy, Debug, PartialEq, Eq)]
pub struct Token {
    pub head: Head,
    pub len: usize,
}

// A length: the bytes of its line, and the number, or none for Nil.
#[derive(Clone, Copy, Debug, PartialEq, Eq)]
pub struct Size {
    pub len: usize,
    pub count: Option<usize>,
}

// A value that is whole: the bytes that it takes, and the text of the first error in it.
#[derive(Clone, Copy, Debug, PartialEq, Eq)]
pub struct Walk {
    pub len: usize,
    pub error: Option<Place>,
}

// A command: the number of its words, and where the first stands.
#[derive(Clone, Copy, Debug, PartialEq, Eq)]
pub struct Command {
    pub count: usize,
    pub first: Place,
}
