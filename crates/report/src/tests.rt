use crate::entry_ranges;
use std::alloc::AllocError;
use tape::Kind;

// Two ranges, of which the second names the host that answered.
const ANSWER: &[u8] =
    b"*2\r\n*4\r\n:0\r\n:5\r\n*2\r\n$1\r\na\r\n:1\r\n*2\r\n$1\r\nb\r\n:2\r\n*3\r\n:10\r\n:20\r\n*2\r\n$-1\r\n:3\r\n";

#[test]
fn lists_the_ranges_of_an_answer(rt: HostRuntime) -> Result<(), AllocError> {
    let heap = rt.alloc();
    let mut out = Vec::new(heap);
    entry_ranges(&mut out, heap, Kind::Answer, ANSWER)?;
    assert_eq!(rt;
        out.as_slice(),
        b"range 0 5 a:1 b:2\nrange 10 20 -:3\n".as_slice()
    );
    Ok(())
}

#[test]
fn lists_nothing_else(rt: HostRuntime) -> Result<(), AllocError> {
    let heap = rt.alloc();
    let mut out = Vec::new(heap);
    entry_ranges(&mut out, heap, Kind::Dropped, ANSWER)?;
    entry_ranges(&mut out, heap, Kind::Answer, b"-LOADING x\r\n")?;
    entry_ranges(&mut out, heap, Kind::Answer, b"*1\r\n*2\r\n")?;
    assert!(rt; out.is_empty());
    Ok(())
}
