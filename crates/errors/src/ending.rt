ghost use Rattle.std.specs.Prelude.{◌≡◌, length, IfOk, MatchResult, Some};
ghost use Rattle.resp.specs.Told.{text_at, Errs};
ghost use Rattle.errors.specs.Codes.{kind};
ghost use Rattle.errors.specs.Names.{ending_name};
ghost use Rattle.errors.specs.Words.{code_text};
ghost use Rattle.errors.specs.Endings.{ending as ending_of, error_text, error_ending as ending_by, kind_ending, refusal as refusal_of, retry};

use crate::redis_error::{NetworkFault, Refusal, RetryMethod};
use crate::server_error::{ServerError, ServerErrorKind};
use resp::place::{Place, Walk};
use resp::value;
use std::fmt;

// How deep the arrays of an answer may be nested.
pub const DEPTH: u32 = 8;

// How an act on the network ends.
#[derive(Clone, Copy, Debug, PartialEq, Eq)]
pub enum Ending {
    Good,
    // The first server error in the answer, by its code.
    Server(ServerErrorKind),
    // The same, if the code is not known.
    Extension,
    // The answer is not one value of the protocol.
    Parse,
    // The answer is longer than the memory lent for it.
    TooLong,
    Dropped,
    Denied,
    Other,
}

impl Ending {
    // The refusal that an ending other than good stands for.
    pub fn refusal(self) -> Option<Refusal>
        ensures { result ≡ refusal_of self }
    {
        match self {
            Ending::Good => None,
            Ending::Server(kind) => Some(kind.into()),
            Ending::Extension => Some(Refusal::Extension),
            Ending::Parse => Some(Refusal::Unreadable),
            Ending::TooLong => Some(NetworkFault::TooLong.into()),
            Ending::Dropped => Some(NetworkFault::Dropped.into()),
            Ending::Denied => Some(NetworkFault::Denied.into()),
            Ending::Other => Some(NetworkFault::Other.into()),
        }
    }

    // What a retry after it does first; nothing is to be retried after a good ending.
    pub fn retry_method(self) -> Option<RetryMethod>
        ensures { result ≡ retry (refusal_of self) }
    {
        self.refusal().map(Refusal::retry_method)
    }
}

impl fmt::Display for Ending {
    ghost output = { λ x. Some (ending_name x) };

    fn fmt<W: fmt::Write>(&self, f: &mut fmt::Formatter<W>) -> fmt::Result {
        f.write_str(self.name())
    }
}

// An answer that was read: how it ends, and the text of the error by which it does.
#[derive(Clone, Copy, Debug, PartialEq, Eq)]
pub struct Answer {
    pub ending: Ending,
    pub error: Option<Place>,
}

fn error_ending(text: &[u8]) -> Ending
    ensures { result ≡ kind_ending (kind (code_text text.now)) }
{
    ServerError::read(text)
        .kind
        .map_or(Ending::Extension, Ending::Server)
}

// The one value that the bytes are, or else how such an answer ends.
fn walk(bytes: &[u8], lent: usize) -> Result<Walk, Ending>
    ensures within { IfOk result (λ w. Errs (length bytes.now) w.error) }
    ensures ending { MatchResult result (λ w. ending_of lent bytes.now ≡ ending_by (text_at bytes.now w.error)) (λ e. ending_of lent bytes.now ≡ e) }
    ensures error { MatchResult result (λ w. error_text lent bytes.now ≡ text_at bytes.now w.error) (λ e. error_text lent bytes.now ≡ None) }
{
    if bytes.len() > lent {
        return Err(Ending::TooLong);
    }
    value::whole(bytes, DEPTH).ok_or(Ending::Parse)
}

impl Answer {
    // The answer for which `lent` bytes of memory are lent.
    pub fn read(bytes: &[u8], lent: usize) -> Answer
        ensures ending { result.ending ≡ ending_of lent bytes.now }
        ensures error { text_at bytes.now result.error ≡ error_text lent bytes.now }
        ensures within { Errs (length bytes.now) result.error }
    {
        match walk(bytes, lent) {
            Ok(walk) => Answer {
                ending: walk
                    .error
                    .map_or(Ending::Good, |error| error_ending(error.text(bytes))),
                error: walk.error,
            },
            Err(ending) => Answer {
                ending,
                error: None,
            },
        }
    }
}
