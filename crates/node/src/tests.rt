use crate::{NodeAddress, split_node_address};
use std::test::Fail;

#[test]
fn splits_host_and_port(rt: HostRuntime) -> Result<(), Fail> {
    let numeric = split_node_address(b"127.0.0.1:6379").ok_or("a numeric host")?;
    assert_eq!(rt; numeric.host, 9);
    assert_eq!(rt; numeric.port, 6379);
    let largest = split_node_address(b"h:65535").ok_or("the largest port")?;
    assert_eq!(rt; largest.host, 1);
    assert_eq!(rt; largest.port, 65535);
    let mut longest = [b'h'; 66];
    longest[64] = b':';
    longest[65] = b'1';
    assert!(rt;
        split_node_address(&longest).is_some(),
        "a host of 64 bytes"
    );
    Ok(())
}

#[test]
fn refuses_other_ports(rt: HostRuntime) {
    assert_eq!(rt; split_node_address(b"h:0"), None);
    assert_eq!(rt; split_node_address(b"h:01"), None);
    assert_eq!(rt; split_node_address(b"h:+1"), None);
    assert_eq!(rt; split_node_address(b"h:65536"), None);
    assert_eq!(rt; split_node_address(b"h:99999999999999999999"), None);
    assert_eq!(rt; split_node_address(b"h:"), None);
}

#[test]
fn refuses_other_hosts(rt: HostRuntime) {
    assert_eq!(rt; split_node_address(b""), None);
    assert_eq!(rt; split_node_address(b":1"), None);
    assert_eq!(rt; split_node_address(b"[h]:1"), None);
    assert_eq!(rt; split_node_address(b"a:b:1"), None);
    assert_eq!(rt; split_node_address(b"::1:5"), None);
    assert_eq!(rt; split_node_address(b"a b:1"), None);
    assert_eq!(rt; split_node_address(b"caf\xc3\xa9:1"), None);
    let mut long = [b'h'; 67];
    long[65] = b':';
    long[66] = b'1';
    assert_eq!(rt; split_node_address(&long), None, "a host of 65 bytes");
}

#[test]
fn ascends_by_host_then_port(rt: HostRuntime) -> Result<(), Fail> {
    let a2 = NodeAddress::parse(b"a:2").ok_or(())?;
    let a10 = NodeAddress::parse(b"a:10").ok_or(())?;
    let aa = NodeAddress::parse(b"aa:1").ok_or(())?;
    let b = NodeAddress::parse(b"b:1").ok_or(())?;
    assert!(rt; a2 < a10);
    assert!(rt; a10 < aa);
    assert!(rt; aa < b);
    assert_eq!(rt; NodeAddress::new(b"a", 2), Some(a2));
    assert_ne!(rt; a2, a10);
    Ok(())
}
