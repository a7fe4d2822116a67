ghost use Rattle.std.specs.Prelude.{◌≡◌, length, Some};
ghost use Rattle.resp.specs.Told.{part, text_at, Errs};
ghost use Rattle.errors.specs.Codes.{code as code_of, kind as kind_of};
ghost use Rattle.errors.specs.Names.{kind_name};
ghost use Rattle.errors.specs.Words.{code_text, detail_text};

use crate::words::blank;
use resp::place::Place;
use std::fmt;

// The kinds of errors that a server answers with, each by its code.
#[derive(Clone, Copy, Debug, PartialEq, Eq)]
pub enum ServerErrorKind {
    // The command failed, or a general error.
    ResponseError,
    // A transaction was discarded.
    ExecAbort,
    // The server is loading its data.
    BusyLoading,
    // No script has this digest.
    NoScript,
    // The slot is served by another node.
    Moved,
    // The key is to be asked for at another node, this once.
    Ask,
    // The keys are on the move between two nodes.
    TryAgain,
    // The cluster is down, or the slot is not served.
    ClusterDown,
    // The keys lie in several slots.
    CrossSlot,
    // A replica without its primary.
    MasterDown,
    // A write at a replica.
    ReadOnly,
    // No script is running that could be stopped.
    NotBusy,
    // Unsubscribed without a subscription.
    NoSub,
    // The user may not run the command.
    NoPerm,
}

const KINDS: [ServerErrorKind; 14] = [
    ServerErrorKind::ResponseError,
    ServerErrorKind::ExecAbort,
    ServerErrorKind::BusyLoading,
    ServerErrorKind::NoScript,
    ServerErrorKind::Moved,
    ServerErrorKind::Ask,
    ServerErrorKind::TryAgain,
    ServerErrorKind::ClusterDown,
    ServerErrorKind::CrossSlot,
    ServerErrorKind::MasterDown,
    ServerErrorKind::ReadOnly,
    ServerErrorKind::NotBusy,
    ServerErrorKind::NoSub,
    ServerErrorKind::NoPerm,
];

impl ServerErrorKind {
    pub fn code(self) -> &'static [u8]
        ensures { result.now ≡ code_of self }
    {
        match self {
            ServerErrorKind::ResponseError => b"ERR",
            ServerErrorKind::ExecAbort => b"EXECABORT",
            ServerErrorKind::BusyLoading => b"LOADING",
            ServerErrorKind::NoScript => b"NOSCRIPT",
            ServerErrorKind::Moved => b"MOVED",
            ServerErrorKind::Ask => b"ASK",
            ServerErrorKind::TryAgain => b"TRYAGAIN",
            ServerErrorKind::ClusterDown => b"CLUSTERDOWN",
            ServerErrorKind::CrossSlot => b"CROSSSLOT",
            ServerErrorKind::MasterDown => b"MASTERDOWN",
            ServerErrorKind::ReadOnly => b"READONLY",
            ServerErrorKind::NotBusy => b"NOTBUSY",
            ServerErrorKind::NoSub => b"NOSUB",
            ServerErrorKind::NoPerm => b"NOPERM",
        }
    }

    // The kind that has this code.
    #[tactic(auto, unfolding(crate::specs::Codes::kind))]
    pub fn from_code(code: &[u8]) -> Option<ServerErrorKind>
        ensures { result ≡ kind_of code.now }
    {
        KINDS.iter().copied().find(|kind| kind.code() == code)
    }
}

impl fmt::Display for ServerErrorKind {
    ghost output = { λ x. Some (kind_name x) };

    fn fmt<W: fmt::Write>(&self, f: &mut fmt::Formatter<W>) -> fmt::Result {
        f.write_str(self.name())
    }
}

// A server error by its text: its kind, if the code is known, and the places of its code and its detail.
#[derive(Clone, Copy, Debug, PartialEq, Eq)]
pub struct ServerError {
    pub kind: Option<ServerErrorKind>,
    pub code: Place,
    pub detail: Option<Place>,
}

impl ServerError {
    pub fn read(text: &[u8]) -> ServerError
        ensures kind { result.kind ≡ kind_of (code_text text.now) }
        ensures code { part text.now result.code ≡ code_text text.now }
        ensures detail { text_at text.now result.detail ≡ detail_text text.now }
        ensures within { Errs (length text.now) result.detail }
    {
        let blank = blank(text);
        let code = Place {
            start: 0,
            end: blank.unwrap_or(text.len()),
        };
        let detail = blank.map(|at| Place {
            start: at + 1,
            end: text.len(),
        });
        ServerError {
            kind: ServerErrorKind::from_code(code.text(text)),
            code,
            detail,
        }
    }
}
