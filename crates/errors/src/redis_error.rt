ghost use Rattle.std.specs.Prelude.{◌≡◌, Some};
ghost use Rattle.errors.specs.Names.{method_name};
ghost use Rattle.errors.specs.Refusals.{number as number_of, kind as kind_of, dropped, denied};
ghost use Rattle.errors.specs.Retries.{method};
ghost use Rattle.errors.specs.declared.redis_error.Refusal.TheVariants.{Network, Server};

use crate::server_error::ServerErrorKind;
use std::fmt;

// The kinds of errors that a user of the client meets.
#[derive(Clone, Copy, Debug, PartialEq, Eq)]
pub enum ErrorKind {
    // An answer is not one value of the protocol.
    Parse,
    // An answer has another shape than its policy asks for.
    UnexpectedReturnType,
    // The network failed.
    Io,
    // The client refused, before or while it acted.
    Client,
    // A server error whose code the client does not know.
    Extension,
    // No link to a node was found.
    ClusterConnectionNotFound,
    // A server error, by its code.
    Server(ServerErrorKind),
}

// What a retry does first.
#[derive(Clone, Copy, Debug, PartialEq, Eq)]
pub enum RetryMethod {
    // Replace the link, which is no longer of use.
    Reconnect,
    // Nothing: the error is final.
    NoRetry,
    // Nothing: the command goes out again at once.
    RetryImmediately,
    // Wait.
    WaitAndRetry,
    // Go to the named node, behind ASKING.
    AskRedirect,
    // Refresh the slots, then go to the named node.
    MovedRedirect,
    // Open the seeds again, then refresh the slots.
    ReconnectFromInitialConnections,
    // Wait, then refresh the slots.
    RefreshSlotsAndRetry,
}

impl fmt::Display for RetryMethod {
    ghost output = { λ x. Some (method_name x) };

    fn fmt<W: fmt::Write>(&self, f: &mut fmt::Formatter<W>) -> fmt::Result {
        f.write_str(self.name())
    }
}

// How the network fails.
#[derive(Clone, Copy, Debug, PartialEq, Eq)]
pub enum NetworkFault {
    // The connection was reset, or never came about.
    Dropped,
    // Permission was denied.
    Denied,
    // Anything else, as a time-out.
    Other,
    // The answer is longer than the memory lent for it.
    TooLong,
}

// Why a call is refused: the questions that were answered with no, in the order in which they are asked.
#[derive(Clone, Copy, Debug, PartialEq, Eq)]
pub enum Refusal {
    // 1: not 1 to 8 readable seeds.
    Seeds,
    // 2: retries or waits out of range.
    Settings,
    // 3: a command that is none, or too long.
    Command,
    // 4: a word that no pipeline may carry.
    IllegalCommand,
    // 5: a route that is none.
    Route,
    // 6: too little work memory.
    WorkMemory,
    // 7: no room in the log for the call's ceiling.
    LogRoom,
    // 8: a pipelined slot that nobody serves.
    UncoveredSlot,
    // 9: the table of links is full.
    LinkTable,
    // 10: no seed passes.
    NoSeed,
    // 11: no link to ask for the slots.
    NoSlotsLink,
    // 12: more addresses, ranges or replicas than the tables hold.
    SlotTable,
    // 13: no link at all.
    NoLink,
    // 14: the network failed.
    Network(NetworkFault),
    // 15: an answer that cannot be read.
    Unreadable,
    // 16: a server error, by its code.
    Server(ServerErrorKind),
    // 16: a server error of another code.
    Extension,
    // 17: an answer of another shape than the policy's.
    Shape,
    // 17: a key above 64 bytes, or more than 1,024 different keys.
    Keys,
    // 18: a sum past 64 signed bits.
    Sum,
    // 19: nothing to visit, where all are to succeed.
    NoneForAll,
    // 19: nothing to visit, where one is to succeed.
    NoneForOne,
    // 19: nothing to visit, where the least is asked for.
    NoneForMin,
    // 20: too little output memory.
    Output,
}

impl From<NetworkFault> for Refusal {
    ghost from_gives = { λ fault r. r ≡ Network fault };

    fn from(fault: NetworkFault) -> Refusal {
        Refusal::Network(fault)
    }
}

impl From<ServerErrorKind> for Refusal {
    ghost from_gives = { λ server r. r ≡ Server server };

    fn from(server: ServerErrorKind) -> Refusal {
        Refusal::Server(server)
    }
}

impl Refusal {
    // The number by which the refusal is reported.
    pub fn number(self) -> u8
        ensures { result ≡ number_of self }
    {
        // One exhaustive match, so that each new refusal has to be given its number.
        match self {
            Refusal::Seeds => 1,
            Refusal::Settings => 2,
            Refusal::Command => 3,
            Refusal::IllegalCommand => 4,
            Refusal::Route => 5,
            Refusal::WorkMemory => 6,
            Refusal::LogRoom => 7,
            Refusal::UncoveredSlot => 8,
            Refusal::LinkTable => 9,
            Refusal::NoSeed => 10,
            Refusal::NoSlotsLink => 11,
            Refusal::SlotTable => 12,
            Refusal::NoLink => 13,
            Refusal::Network(_) => 14,
            Refusal::Unreadable => 15,
            Refusal::Server(_) | Refusal::Extension => 16,
            Refusal::Shape | Refusal::Keys => 17,
            Refusal::Sum => 18,
            Refusal::NoneForAll | Refusal::NoneForOne | Refusal::NoneForMin => 19,
            Refusal::Output => 20,
        }
    }

    // The error's kind.
    pub fn kind(self) -> ErrorKind
        ensures { result ≡ kind_of self }
    {
        // One exhaustive match, so that each new refusal has to be given its kind.
        match self {
            Refusal::Network(NetworkFault::TooLong) => ErrorKind::Client,
            Refusal::Network(_) | Refusal::NoSeed | Refusal::NoneForOne => ErrorKind::Io,
            Refusal::NoLink | Refusal::NoneForAll => ErrorKind::ClusterConnectionNotFound,
            Refusal::Unreadable => ErrorKind::Parse,
            Refusal::Server(kind) => ErrorKind::Server(kind),
            Refusal::Extension => ErrorKind::Extension,
            Refusal::Shape => ErrorKind::UnexpectedReturnType,
            Refusal::Seeds
            | Refusal::Settings
            | Refusal::Command
            | Refusal::IllegalCommand
            | Refusal::Route
            | Refusal::WorkMemory
            | Refusal::LogRoom
            | Refusal::UncoveredSlot
            | Refusal::LinkTable
            | Refusal::NoSlotsLink
            | Refusal::SlotTable
            | Refusal::Keys
            | Refusal::Sum
            | Refusal::NoneForMin
            | Refusal::Output => ErrorKind::Client,
        }
    }

    // A link that is gone; an error of kind Io that came from no act counts as one too.
    fn is_connection_dropped(self) -> bool
        ensures { result ≡ dropped self }
    {
        matches!(
            self,
            Refusal::Network(NetworkFault::Dropped) | Refusal::NoSeed | Refusal::NoneForOne
        )
    }

    fn is_permission_denied(self) -> bool
        ensures { result ≡ denied self }
    {
        matches!(self, Refusal::Network(NetworkFault::Denied))
    }

    // What has to be done before the command may go out again.
    pub fn retry_method(self) -> RetryMethod
        ensures { result ≡ method self }
    {
        // One exhaustive match, so that each new kind has to be given its method.
        match self.kind() {
            ErrorKind::Server(ServerErrorKind::Moved) => RetryMethod::MovedRedirect,
            ErrorKind::Server(ServerErrorKind::Ask) => RetryMethod::AskRedirect,
            ErrorKind::Server(
                ServerErrorKind::TryAgain
                | ServerErrorKind::MasterDown
                | ServerErrorKind::ClusterDown
                | ServerErrorKind::BusyLoading,
            ) => RetryMethod::WaitAndRetry,
            // A write reached a node that is a replica by now: the slots have to be read again.
            ErrorKind::Server(ServerErrorKind::ReadOnly) => RetryMethod::RefreshSlotsAndRetry,
            ErrorKind::Parse => RetryMethod::Reconnect,
            ErrorKind::ClusterConnectionNotFound => RetryMethod::ReconnectFromInitialConnections,
            ErrorKind::Io if self.is_connection_dropped() => RetryMethod::Reconnect,
            ErrorKind::Io if !self.is_permission_denied() => RetryMethod::RetryImmediately,
            ErrorKind::Io
            | ErrorKind::Server(_)
            | ErrorKind::Extension
            | ErrorKind::UnexpectedReturnType
            | ErrorKind::Client => RetryMethod::NoRetry,
        }
    }
}
