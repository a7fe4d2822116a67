ghost use Rattle.std.specs.Prelude.{◌≡◌};
ghost use Rattle.errors.specs.Names.{kind_name, ending_name, method_name};

use crate::ending::Ending;
use crate::redis_error::RetryMethod;
use crate::server_error::ServerErrorKind;

impl ServerErrorKind {
    // Names by hand, public as they were: the derived printing has no contract, and `Display` writes the same.
    // The word by which a report names the kind.
    pub fn name(self) -> &'static str
        ensures { result.now ≡ kind_name self }
    {
        match self {
            ServerErrorKind::ResponseError => "ResponseError",
            ServerErrorKind::ExecAbort => "ExecAbort",
            ServerErrorKind::BusyLoading => "BusyLoading",
            ServerErrorKind::NoScript => "NoScript",
            ServerErrorKind::Moved => "Moved",
            ServerErrorKind::Ask => "Ask",
            ServerErrorKind::TryAgain => "TryAgain",
            ServerErrorKind::ClusterDown => "ClusterDown",
            ServerErrorKind::CrossSlot => "CrossSlot",
            ServerErrorKind::MasterDown => "MasterDown",
            ServerErrorKind::ReadOnly => "ReadOnly",
            ServerErrorKind::NotBusy => "NotBusy",
            ServerErrorKind::NoSub => "NoSub",
            ServerErrorKind::NoPerm => "NoPerm",
        }
    }
}

impl Ending {
    // The word by which a report names the ending.
    pub fn name(self) -> &'static str
        ensures { result.now ≡ ending_name self }
    {
        match self {
            Ending::Good => "good",
            Ending::Server(kind) => kind.name(),
            Ending::Extension => "Extension",
            Ending::Parse => "Parse",
            Ending::TooLong => "TooLong",
            Ending::Dropped => "Dropped",
            Ending::Denied => "Denied",
            Ending::Other => "Other",
        }
    }
}

impl RetryMethod {
    // The word by which a report names the method.
    pub fn name(self) -> &'static str
        ensures { result.now ≡ method_name self }
    {
        match self {
            RetryMethod::Reconnect => "Reconnect",
            RetryMethod::NoRetry => "NoRetry",
            RetryMethod::RetryImmediately => "RetryImmediately",
            RetryMethod::WaitAndRetry => "WaitAndRetry",
            RetryMethod::AskRedirect => "AskRedirect",
            RetryMethod::MovedRedirect => "MovedRedirect",
            RetryMethod::ReconnectFromInitialConnections => "ReconnectFromInitialConnections",
            RetryMethod::RefreshSlotsAndRetry => "RefreshSlotsAndRetry",
        }
    }
}
