use crate::{Answer, Ending, Redirect, Refusal, ServerErrorKind, Target, redirect_node};
use node::NodeAddress;
use resp::place::Place;
use std::test::Fail;

// Each code, the kind that it stands for, and what a retry does first.
const CODES: [(&[u8], &str, &str); 14] = [
    (b"ERR", "ResponseError", "NoRetry"),
    (b"EXECABORT", "ExecAbort", "NoRetry"),
    (b"LOADING", "BusyLoading", "WaitAndRetry"),
    (b"NOSCRIPT", "NoScript", "NoRetry"),
    (b"MOVED", "Moved", "MovedRedirect"),
    (b"ASK", "Ask", "AskRedirect"),
    (b"TRYAGAIN", "TryAgain", "WaitAndRetry"),
    (b"CLUSTERDOWN", "ClusterDown", "WaitAndRetry"),
    (b"CROSSSLOT", "CrossSlot", "NoRetry"),
    (b"MASTERDOWN", "MasterDown", "WaitAndRetry"),
    (b"READONLY", "ReadOnly", "RefreshSlotsAndRetry"),
    (b"NOTBUSY", "NotBusy", "NoRetry"),
    (b"NOSUB", "NoSub", "NoRetry"),
    (b"NOPERM", "NoPerm", "NoRetry"),
];

#[test]
fn knows_each_code(rt: HostRuntime) -> Result<(), Fail> {
    for (code, name, method) in CODES {
        let kind = ServerErrorKind::from_code(code).ok_or(name)?;
        assert_eq!(rt; kind.name(), name);
        assert_eq!(rt; kind.code(), code);
        assert_eq!(rt; Refusal::Server(kind).retry_method().name(), method);
    }
    assert_eq!(rt; ServerErrorKind::from_code(b"moved"), None);
    assert_eq!(rt; ServerErrorKind::from_code(b""), None);
    Ok(())
}

// What an ending other than a server's known error is named, and what a retry after it does first.
const ENDINGS: [(Ending, &str, &str); 6] = [
    (Ending::Extension, "Extension", "NoRetry"),
    (Ending::Parse, "Parse", "Reconnect"),
    (Ending::TooLong, "TooLong", "NoRetry"),
    (Ending::Dropped, "Dropped", "Reconnect"),
    (Ending::Denied, "Denied", "NoRetry"),
    (Ending::Other, "Other", "RetryImmediately"),
];

#[test]
fn knows_each_ending(rt: HostRuntime) -> Result<(), Fail> {
    for (ending, name, method) in ENDINGS {
        assert_eq!(rt; ending.name(), name);
        assert_eq!(rt; ending.retry_method().ok_or(name)?.name(), method);
    }
    assert_eq!(rt; Ending::Good.retry_method(), None);
    assert_eq!(rt;
        Refusal::NoLink.retry_method().name(),
        "ReconnectFromInitialConnections"
    );
    Ok(())
}

#[test]
fn ends_by_the_first_error(rt: HostRuntime) {
    assert_eq!(rt; Answer::read(b"-\r\n", 64).ending.name(), "Extension");
    assert_eq!(rt;
        Answer::read(b"- MOVED 7 b:2\r\n", 64).ending.name(),
        "Extension"
    );
    assert_eq!(rt; Answer::read(b"-ASK\r\n", 64).ending.name(), "Ask");
    assert_eq!(rt; Answer::read(b"+OK\r\n+", 64).ending.name(), "Parse");
    assert_eq!(rt; Answer::read(b"", 64).ending.name(), "Parse");
    assert_eq!(rt; Answer::read(b"+OK\r\n", 5).ending.name(), "good");
    assert_eq!(rt; Answer::read(b"+OK\r\n", 4).ending.name(), "TooLong");
    let inside = Answer::read(b"*3\r\n:1\r\n-TRYAGAIN x\r\n-ERR y\r\n", 64);
    assert_eq!(rt; inside.ending.name(), "TryAgain");
    assert_eq!(rt; inside.error, Some(Place { start: 9, end: 19 }));
}

#[test]
fn redirects_to_a_readable_address(rt: HostRuntime) -> Result<(), Fail> {
    let text = b"MOVED 3999 127.0.0.1:6381";
    let moved = Target {
        host: Place { start: 11, end: 20 },
        port: 6381,
    };
    assert_eq!(rt; Redirect::read(text), Some(Redirect::Moved(moved)));
    assert_eq!(rt; moved.host.text(text), b"127.0.0.1".as_slice());
    let address = moved.address(text).ok_or("an address")?;
    let read = NodeAddress::parse(b"127.0.0.1:6381").ok_or("a readable text")?;
    assert_eq!(rt; address, read);
    let ask = Redirect::read(b"ASK +7 h:1");
    assert_eq!(rt;
        ask,
        Some(Redirect::Ask(Target {
            host: Place { start: 7, end: 8 },
            port: 1
        }))
    );
    assert!(rt; Redirect::read(b"ASK 007 h:1").is_some());
    let between = redirect_node(b"\t7\n\x0ch:1\r2");
    assert_eq!(rt;
        between,
        Some(Target {
            host: Place { start: 4, end: 5 },
            port: 1
        })
    );
    Ok(())
}

const NO_REDIRECTS: [&[u8]; 13] = [
    b"ERR 7 h:1",
    b"ASK + h:1",
    b"ASK -0 h:1",
    b"ASK ++7 h:1",
    b"ASK 65536 h:1",
    b"MOVED",
    b"MOVED 7",
    b"ASK 7 h:70000",
    b"MOVED 7 :2",
    b"MOVED 7 a:b:1",
    b"MOVED 7 [h]:1",
    b"MOVED 7 h:0",
    b"MOVED 7 h:01",
];

#[test]
fn redirects_nowhere_else(rt: HostRuntime) {
    for text in NO_REDIRECTS {
        assert_eq!(rt; Redirect::read(text), None);
    }
}
