use crate::number::integer;
use crate::place::{Head, Place, Token, Walk};
use crate::{command, token, value, write};
use std::test::Fail;

// A token of the head and the number of bytes that it takes.
fn some_token(head: Head, len: usize) -> Option<Token> {
    Some(Token { head, len })
}

#[test]
fn reads_each_kind(rt: HostRuntime) {
    let text = Head::Simple(Place { start: 1, end: 3 });
    assert_eq!(rt; token::read(b"+OK\r\n"), some_token(text, 5));
    let error = Head::Error(Place { start: 1, end: 14 });
    assert_eq!(rt; token::read(b"-Error message\r\n"), some_token(error, 16));
    assert_eq!(rt;
        token::read(b":1000\r\n"),
        some_token(Head::Integer(1000), 7)
    );
    let bulk = Head::Bulk(Place { start: 4, end: 9 });
    assert_eq!(rt; token::read(b"$5\r\nhello\r\n"), some_token(bulk, 11));
    assert_eq!(rt;
        token::read(b"*2\r\n:1\r\n:2\r\n"),
        some_token(Head::Array(2), 4)
    );
    assert_eq!(rt; token::read(b"$-1\r\n"), some_token(Head::Nil, 5));
    assert_eq!(rt; token::read(b"*-1\r\n"), some_token(Head::Nil, 5));
    let errors = Walk {
        len: 28,
        error: Some(Place { start: 13, end: 18 }),
    };
    let bytes = b"*3\r\n:1\r\n*1\r\n-ERR x\r\n-ERR y\r\n+OK\r\n";
    assert_eq!(rt; value::read(bytes, 8), Some(errors));
}

#[test]
fn moves_a_place(rt: HostRuntime) {
    let place = Place { start: 1, end: 3 };
    assert_eq!(rt; place.moved(4), Place { start: 5, end: 7 });
    assert_eq!(rt; place.moved(4).text(b"*1\r\n+OK\r\n"), b"OK".as_slice());
    let last = Place {
        start: usize::MAX,
        end: usize::MAX,
    };
    assert_eq!(rt; place.moved(usize::MAX), last);
}

const NO_VALUES: [&[u8]; 14] = [
    b"",
    b"OK\r\n",
    b"$-2\r\n",
    b"$+1\r\na\r\n",
    b"*-01\r\n",
    b":\r\n",
    b":+\r\n",
    b"+a\nb\r\n",
    b"+a\rb\r\n",
    b"+a\r",
    b"$2\r\na\r\n",
    b"$1\r\nab\r\n",
    b"$1\r\na",
    b"*2\r\n:1\r\n",
];

#[test]
fn refuses_what_is_no_value(rt: HostRuntime) {
    for bytes in NO_VALUES {
        assert_eq!(rt; value::read(bytes, 8), None);
    }
}

#[test]
fn reads_one_value_alone(rt: HostRuntime) {
    let walk = Walk {
        len: 4,
        error: None,
    };
    assert_eq!(rt; value::whole(b"*0\r\n", 8), Some(walk));
    assert_eq!(rt; value::whole(b"*0\r\n*0\r\n", 8), None);
}

#[test]
fn reads_signed_integers(rt: HostRuntime) {
    assert_eq!(rt; integer(b"+5"), Some(5));
    assert_eq!(rt; integer(b"-0"), Some(0));
    assert_eq!(rt; integer(b"007"), Some(7));
    assert_eq!(rt; integer(b"9223372036854775807"), Some(i64::MAX));
    assert_eq!(rt; integer(b"-9223372036854775808"), Some(i64::MIN));
    assert_eq!(rt; integer(b"9223372036854775808"), None);
    assert_eq!(rt; integer(b"-9223372036854775809"), None);
}

#[test]
fn nests_as_deep_as_allowed(rt: HostRuntime) {
    let nine = b"*1\r\n*1\r\n*1\r\n*1\r\n*1\r\n*1\r\n*1\r\n*1\r\n*1\r\n:7\r\n";
    assert!(rt; value::read(&nine[4..], 8).is_some(), "8 deep");
    assert!(rt; value::read(nine, 8).is_none(), "9 deep");
    let nil = b"*1\r\n*1\r\n*1\r\n*1\r\n*1\r\n*1\r\n*1\r\n*1\r\n*-1\r\n";
    assert!(rt; value::read(nil, 8).is_some(), "Nil is no array");
    let empty = b"*1\r\n*1\r\n*1\r\n*1\r\n*1\r\n*1\r\n*1\r\n*1\r\n*0\r\n";
    assert!(rt; value::read(empty, 8).is_none(), "an empty array is one");
}

// A command of `count` words: 5 bytes, and 7 for each word.
fn frame(out: &mut [u8], count: usize) -> Option<usize> {
    let mut at = write::array(out, 0, count)?;
    for _word in 0..count {
        at = write::bulk_string(out, at, b"a")?;
    }
    Some(at)
}

#[test]
fn reads_commands(rt: HostRuntime) -> Result<(), Fail> {
    let mut out = [0; 460];
    assert_eq!(rt; frame(&mut out, 64), Some(453));
    let most = command::read(&out[0..453]).ok_or("64 words")?;
    assert_eq!(rt; most.count, 64);
    assert_eq!(rt; most.first, Place { start: 9, end: 10 });
    assert_eq!(rt; frame(&mut out, 65), Some(460));
    assert!(rt; command::read(&out).is_none(), "65 words");
    assert!(rt; command::read(b"*01\r\n$4\r\nPING\r\n").is_some());
    assert!(rt; command::read(b"*2\r\n$3\r\nGET\r\n$0\r\n\r\n").is_some());
    assert!(rt;
        command::read(b"*2\r\n$3\r\nGET\r\n$-1\r\n").is_none(),
        "a Nil word"
    );
    assert!(rt;
        command::read(b"*1\r\n$0\r\n\r\n").is_none(),
        "an empty first word"
    );
    assert!(rt; command::read(b"*0\r\n").is_none(), "no word");
    Ok(())
}

#[test]
fn writes_within_its_room(rt: HostRuntime) {
    let mut out = [b'x'; 40];
    assert_eq!(rt; write::array(&mut out, 0, 3), Some(4));
    assert_eq!(rt; write::integer(&mut out, 4, i64::MIN), Some(27));
    assert_eq!(rt; write::nil(&mut out, 27), Some(32));
    assert_eq!(rt; write::bulk_string(&mut out, 32, b""), Some(38));
    let written = b"*3\r\n:-9223372036854775808\r\n$-1\r\n$0\r\n\r\nxx";
    assert!(rt; out == *written);
    let walk = Walk {
        len: 38,
        error: None,
    };
    assert_eq!(rt; value::read(&out, 1), Some(walk));
    assert_eq!(rt; write::bulk_string(&mut out, 34, b"a"), None);
    assert_eq!(rt; write::integer(&mut out, 37, 7), None);
    assert_eq!(rt; write::array(&mut out, 37, 7), None);
    assert_eq!(rt; write::nil(&mut out, 36), None);
    assert!(rt; out == *written, "no room");
}
