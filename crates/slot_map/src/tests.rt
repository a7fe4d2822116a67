use crate::{SlotMap, parse_slots};
use errors::Refusal;
use resp::write;
use std::test::Fail;

fn start(map: &SlotMap, slot: u16) -> Option<u16> {
    map.get(slot).map(|range| range.start())
}

#[test]
fn finds_the_nearest_range(rt: HostRuntime) -> Result<(), Fail> {
    let answer =
        b"*2\r\n*3\r\n:10\r\n:20\r\n*2\r\n$1\r\nb\r\n:2\r\n*3\r\n:0\r\n:5\r\n*2\r\n$1\r\na\r\n:1\r\n";
    let map = parse_slots(answer, b"h").map_err(|_| "a slot answer")?;
    assert_eq!(rt; start(&map, 0), Some(0));
    assert_eq!(rt; start(&map, 5), Some(0));
    assert_eq!(rt; start(&map, 6), None);
    assert_eq!(rt; start(&map, 10), Some(10));
    assert_eq!(rt; start(&map, 20), Some(10));
    assert_eq!(rt; start(&map, 21), None);
    Ok(())
}

#[test]
fn names_each_address_once(rt: HostRuntime) -> Result<(), Fail> {
    let answer =
        b"*2\r\n*4\r\n:0\r\n:5\r\n*2\r\n$1\r\nb\r\n:2\r\n*2\r\n$-1\r\n:9\r\n*4\r\n:6\r\n:9\r\n*2\r\n$1\r\na\r\n:1\r\n*2\r\n$1\r\nb\r\n:2\r\n";
    let map = parse_slots(answer, b"h").map_err(|_| "a slot answer")?;
    let primaries = map.addresses_for_all_primaries();
    let [first, second] = primaries.as_slice() else {
        return Err(Fail::new("two primaries"));
    };
    assert_eq!(rt; first.host(), b"a".as_slice());
    assert_eq!(rt; second.host(), b"b".as_slice());
    let nodes = map.addresses_for_all_nodes();
    let [_, _, third] = nodes.as_slice() else {
        return Err(Fail::new("three addresses"));
    };
    assert_eq!(rt; third.host(), b"h".as_slice(), "the host that answered");
    assert_eq!(rt; third.port(), 9);
    Ok(())
}

// How many ranges an answer has and how many addresses they name, and where the first begins.
fn listed(answer: &[u8]) -> Result<(usize, usize, Option<u16>), Fail> {
    let map = parse_slots(answer, b"h").map_err(|_| "a slot answer")?;
    let nodes = map.addresses_for_all_nodes();
    let first = map.ranges().first().map(|range| range.start());
    Ok((map.ranges().len(), nodes.as_slice().len(), first))
}

#[test]
fn skips_what_is_no_range(rt: HostRuntime) -> Result<(), Fail> {
    let too_few = b"*1\r\n*1\r\n*3\r\n:1\r\n:1\r\n:1\r\n";
    assert_eq!(rt; listed(too_few)?, (0, 0, None));
    let first_an_array = b"*1\r\n*3\r\n*3\r\n:1\r\n:1\r\n:1\r\n:5\r\n*0\r\n";
    assert_eq!(rt; listed(first_an_array)?, (0, 0, None));
    let last_an_array = b"*1\r\n*3\r\n:0\r\n*3\r\n:1\r\n:1\r\n:1\r\n*0\r\n";
    assert_eq!(rt; listed(last_an_array)?, (0, 0, None));
    let no_node = b"*1\r\n*2\r\n:1\r\n:2\r\n";
    assert_eq!(rt; listed(no_node)?, (0, 0, None));
    let then_a_range =
        b"*4\r\n*1\r\n*3\r\n:1\r\n:1\r\n:1\r\n*3\r\n*1\r\n:1\r\n:5\r\n*0\r\n*2\r\n:1\r\n:2\r\n*3\r\n:0007\r\n:9\r\n*2\r\n$1\r\na\r\n:1\r\n";
    assert_eq!(rt; listed(then_a_range)?, (1, 1, Some(7)));
    Ok(())
}

#[test]
fn skips_what_is_no_node(rt: HostRuntime) -> Result<(), Fail> {
    let host_alone = b"*1\r\n*3\r\n:0\r\n:5\r\n*1\r\n*3\r\n:1\r\n:1\r\n:1\r\n";
    assert_eq!(rt; listed(host_alone)?, (0, 0, None));
    let host_an_array = b"*1\r\n*3\r\n:0\r\n:5\r\n*2\r\n*3\r\n:1\r\n:1\r\n:1\r\n:1\r\n";
    assert_eq!(rt; listed(host_an_array)?, (0, 0, None));
    let port_an_array = b"*1\r\n*3\r\n:0\r\n:5\r\n*2\r\n$1\r\na\r\n*3\r\n:1\r\n:1\r\n:1\r\n";
    assert_eq!(rt; listed(port_an_array)?, (0, 0, None));
    let then_a_node =
        b"*1\r\n*6\r\n:0\r\n:5\r\n*1\r\n*1\r\n:1\r\n*2\r\n*1\r\n:1\r\n:1\r\n*2\r\n$1\r\na\r\n*1\r\n:1\r\n*3\r\n$1\r\nb\r\n:2\r\n*1\r\n:1\r\n";
    assert_eq!(rt; listed(then_a_node)?, (1, 1, Some(0)));
    Ok(())
}

// An answer with so many ranges of one slot, each with so many replicas. All nodes have one address, or
// each range has an address of its own.
fn answer(out: &mut [u8], ranges: u16, replicas: u8, apart: bool) -> Option<usize> {
    let mut at = write::array(out, 0, usize::from(ranges))?;
    for i in 0..ranges {
        at = write::array(out, at, 3 + usize::from(replicas))?;
        at = write::integer(out, at, i64::from(i))?;
        at = write::integer(out, at, i64::from(i))?;
        let port = if apart { i64::from(i) } else { 1 };
        for _node in 0..u16::from(replicas) + 1 {
            at = write::array(out, at, 2)?;
            at = write::bulk_string(out, at, b"h")?;
            at = write::integer(out, at, port)?;
        }
    }
    Some(at)
}

fn refusal(ranges: u16, replicas: u8, apart: bool) -> Result<Option<Refusal>, Fail> {
    let mut out = [0; 8192];
    let len = answer(&mut out, ranges, replicas, apart).ok_or("room for the answer")?;
    let answer = out.get(..len).ok_or("a length within the room")?;
    Ok(parse_slots(answer, b"-").err())
}

#[test]
fn keeps_the_limits(rt: HostRuntime) -> Result<(), Fail> {
    assert_eq!(rt; refusal(256, 0, false)?, None);
    assert_eq!(rt; refusal(257, 0, false)?, Some(Refusal::SlotTable));
    assert_eq!(rt; refusal(1, 8, false)?, None);
    assert_eq!(rt; refusal(1, 9, false)?, Some(Refusal::SlotTable));
    assert_eq!(rt; refusal(64, 0, true)?, None);
    assert_eq!(rt; refusal(65, 0, true)?, Some(Refusal::SlotTable));
    Ok(())
}

#[test]
fn refuses_what_is_unreadable(rt: HostRuntime) -> Result<(), Fail> {
    assert_eq!(rt;
        parse_slots(b"*1\r\n", b"-").err(),
        Some(Refusal::Unreadable)
    );
    assert_eq!(rt;
        parse_slots(b"*0\r\n*0\r\n", b"-").err(),
        Some(Refusal::Unreadable)
    );
    let none = parse_slots(b"-LOADING x\r\n", b"-").map_err(|_| "no array, no ranges")?;
    assert!(rt; none.ranges().is_empty());
    Ok(())
}
