ghost use Rattle.std.specs.Prelude.{◌≡◌, ℕ, suc, ◌<◌, ◌∷◌, ◌++◌, length, Some, IfOk};
ghost use Rattle.errors.specs.Redirection.{redirect};
ghost use Rattle.resp.specs.Told.{text_at};
ghost use Rattle.report.specs.Explained.{entry_ending, entry_error, code_word, sent_word, redirect_word, entry_line, lines, explained};
ghost use Rattle.report.specs.Words.{word_shown, address_shown, or_dash};

use crate::show::Word;
use crate::words::{Address, OrDash};
use errors::{Answer, Ending, Redirect, ServerError};
use resp::place::Place;
use std::alloc::{AllocError, Global};
use std::fmt;
use tape::{Entry, Kind};

// The most bytes that an entry can hold.
const LONGEST: usize = 65535;

fn played(kind: Kind, bytes: &[u8]) -> Answer
    ensures ending { result.ending ≡ entry_ending kind bytes.now }
    ensures error { text_at bytes.now result.error ≡ entry_error kind bytes.now }
{
    let ending = match kind {
        Kind::Answer => return Answer::read(bytes, LONGEST),
        Kind::Dropped => Ending::Dropped,
        Kind::Denied => Ending::Denied,
        Kind::Other => Ending::Other,
    };
    Answer {
        ending,
        error: None,
    }
}

// The code of the error whose text lies at the place.
fn code(bytes: &[u8], error: Option<Place>) -> OrDash<Word<'_>>
    ensures { or_dash word_shown result.0 ≡ Some (code_word (text_at bytes.now error)) }
{
    OrDash(error.map(|place| {
        let text = place.text(bytes);
        Word(ServerError::read(text).code.text(text))
    }))
}

// The address that an error's text redirects to.
fn target(text: &[u8]) -> Option<Address<'_>>
    ensures { or_dash address_shown result ≡ Some (sent_word (redirect text.now)) }
{
    let (Redirect::Moved(target) | Redirect::Ask(target)) = Redirect::read(text)?;
    Some(Address {
        host: target.host.text(text),
        port: target.port,
    })
}

// The redirect in the error whose text lies at the place.
fn redirect(bytes: &[u8], error: Option<Place>) -> OrDash<Address<'_>>
    ensures { or_dash address_shown result.0 ≡ Some (redirect_word (text_at bytes.now error)) }
{
    OrDash(error.and_then(|place| target(place.text(bytes))))
}

// What an entry of a tape means: `entry INDEX KIND ENDING CODE METHOD REDIRECT`.
#[derive(Clone, Copy, Debug, PartialEq, Eq)]
struct EntryLine<'a> {
    index: u64,
    kind: Kind,
    bytes: &'a [u8],
}

impl fmt::Display for EntryLine<'_> {
    ghost output = { λ l. Some (entry_line l.index l.kind l.bytes.now) };

    fn fmt<W: fmt::Write>(&self, f: &mut fmt::Formatter<W>) -> fmt::Result {
        let EntryLine { index, kind, bytes } = *self;
        let Answer { ending, error } = played(kind, bytes);
        let code = code(bytes, error);
        let method = OrDash(ending.retry_method());
        let redirect = redirect(bytes, error);
        write!(
            f,
            "entry {index} {kind} {ending} {code} {method} {redirect}"
        )
    }
}

// The line of the entry at the front of a tape, and what stands behind the entry. What is cut off plays
// dropped.
fn front_line(index: u64, tape: &[u8]) -> (EntryLine<'_>, &[u8])
    requires { 0 < length tape.now }
    ensures line { (n : ℕ) →
        entry_line result.0.index result.0.kind result.0.bytes.now ++ (10 ∷ lines n (suc index) result.1.now)
        ≡ lines (suc n) index tape.now }
    ensures shorter { length result.1.now < length tape.now }
{
    let Some(Entry { kind, bytes, len }) = Entry::read(tape) else {
        return (
            EntryLine {
                index,
                kind: Kind::Dropped,
                bytes: b"",
            },
            b"",
        );
    };
    let bytes = bytes.text(tape);
    (EntryLine { index, kind, bytes }, &tape[len..])
}

// What each entry of the tape means, a line each.
pub fn explain(heap: Global, tape: &[u8]) -> Result<Vec<u8>, AllocError>
    ensures { IfOk result (λ v. v.items ≡ explained tape.now) }
{
    let mut lines = String::new(heap);

    let mut rest = tape;
    let mut index = 0;
    while !rest.is_empty() {
        // By hand: an iterator over the entries would need the same count, and a contract more.
        index += 1;
        let (line, behind) = front_line(index, rest);
        writeln!(lines, "{line}")?;
        rest = behind;
    }
    Ok(lines.into_bytes())
}
