ghost use Rattle.resp.specs.Command.{command as command_of, alone, Commanded, Told};
ghost use Rattle.resp.specs.Reading.{value};

use crate::place::{Command, Head};
use crate::token;

const LONGEST: usize = 16384;

const MOST: usize = 64;

// The command that `bytes` are, whole: an array of 1 to 64 bulk strings, the first not empty.
pub fn read(bytes: &[u8]) -> Option<Command>
    ensures value { Told bytes.now (command_of bytes.now) result }
    ensures stands { Commanded bytes.now result }
{
    if bytes.len() > LONGEST {
        return None;
    }
    words(bytes)
}

fn words(bytes: &[u8]) -> Option<Command>
    ensures { Told bytes.now (alone (value 1 bytes.now)) result }
{
    let token = token::read(bytes)?;
    let Head::Array(count) = token.head else {
        return None;
    };
    let mut rest = &bytes[token.len..];
    let mut first = None;
    for _word in 0..count {
        let word = token::read(rest)?;
        let Head::Bulk(place) = word.head else {
            return None;
        };
        first = first.or(Some(place));
        rest = &rest[word.len..];
    }
    let first = first?;
    if !rest.is_empty() || count > MOST || first.start == first.end {
        return None;
    }
    Some(Command {
        count,
        first: first.moved(token.len),
    })
}
