// Runs answers in bulk: each line of the input is a name and an answer in hexadecimal.
//
// For each it prints the name; the least depth at which the answer is read whole, or -; how many of its
// proper fronts were tried and how many of them were read whole; and what `explain` says of it.
#![tactic(auto)]

use report::explain;
use resp::value;
use std::alloc::{AllocError, Global};
use std::io::{BufRead, BufReader};

// Fronts of an answer longer than this are tried at every so many bytes.
const SHORT: usize = 4096;

const STEP: usize = 97;

// By hand: what is no digit goes on counting as 0, where the library's decoding ends with an error.
fn digit(c: u8) -> u8 {
    match c {
        b'0'..=b'9' => c - b'0',
        b'a'..=b'f' => c - b'a' + 10,
        _ => 0,
    }
}

fn decoded(heap: Global, hex: &[u8]) -> Result<Vec<u8>, AllocError> {
    let (pairs, _) = hex.as_chunks::<2>();
    pairs
        .iter()
        .map(|[high, low]| digit(*high) << 4 | digit(*low))
        .collect(heap)
}

fn reads_whole(bytes: &[u8], depth: u32) -> bool {
    value::read(bytes, depth).is_some_and(|walk| walk.len == bytes.len())
}

fn depth(bytes: &[u8]) -> Option<u32> {
    (0..65).find(|depth| reads_whole(bytes, *depth))
}

// How many proper fronts were tried, and how many of them were read whole.
fn fronts(bytes: &[u8]) -> (usize, usize) {
    let step = if bytes.len() > SHORT { STEP } else { 1 };
    let tried = bytes.len().div_ceil(step);
    let whole = (0..bytes.len())
        .step_by(step)
        .filter(|n| reads_whole(&bytes[..*n], 64))
        .count();
    (tried, whole)
}

// The answer as the one entry of a tape.
fn tape(heap: Global, bytes: &[u8]) -> Result<Vec<u8>, AllocError> {
    let [low, high, ..] = bytes.len().to_le_bytes();
    let mut tape = vec![in heap; 0, low, high]?;
    tape.extend_from_slice(bytes)?;
    Ok(tape)
}

fn run(rt: &HostRuntime, line: &str) -> anyhow::Result<()> {
    let heap = rt.alloc();
    let Some((name, hex)) = line.split_once(' ') else {
        return Ok(());
    };
    let bytes = decoded(heap, hex.as_bytes())?;
    let (tried, whole) = fronts(bytes.as_slice());
    let meaning = explain(heap, tape(heap, bytes.as_slice())?.as_slice())?;
    // Two formats: a number and `-` have no type in common that prints.
    match depth(bytes.as_slice()) {
        Some(depth) => print!(rt; "{name} {depth} {tried} {whole} ")?,
        None => print!(rt; "{name} - {tried} {whole} ")?,
    }
    rt.print(std::str::from_utf8(meaning.as_slice())?)?;
    Ok(())
}

fn main(rt: HostRuntime) -> anyhow::Result<()> {
    for line in BufReader::new(rt.alloc(), rt.stdin())?.lines(rt.alloc()) {
        run(&rt, line?.as_str())?;
    }
    Ok(())
}
