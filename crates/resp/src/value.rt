ghost use Rattle.std.specs.Prelude.{◌≡◌, length, IfSome};
ghost use Rattle.std.specs.Option.{option_map};
ghost use Rattle.resp.specs.Reading.{value as value_of, whole_value};
ghost use Rattle.resp.specs.Standing.{Stood, Sound, Complete, Unambiguous};
ghost use Rattle.resp.specs.Told.{seen, told_walk, told_whole, Walked};
ghost use Rattle.resp.specs.Value.{first_error};

use crate::place::{Head, Walk};
use crate::token;

fn walk(bytes: &[u8], depth: u32) -> Option<Walk>
    ensures within { Walked bytes.now result }
    ensures value { told_walk bytes.now result ≡ seen (value_of depth bytes.now) }
{
    let token = token::read(bytes)?;
    // By hand: how far the walk has come is the length told, and what an element's places are moved by.
    let mut len = token.len;
    match token.head {
        Head::Array(count) => {
            let nested = depth.checked_sub(1)?;
            let mut error = None;
            for _i in 0..count {
                let next = walk(&bytes[len..], nested)?;
                error = error.or(next.error.map(|place| place.moved(len)));
                len += next.len;
            }
            Some(Walk { len, error })
        }
        Head::Error(place) => Some(Walk {
            len,
            error: Some(place),
        }),
        Head::Simple(_) | Head::Integer(_) | Head::Bulk(_) | Head::Nil => Some(Walk {
            len,
            error: None,
        }),
    }
}

// One value at the front of `bytes`, with arrays nested at most `depth` deep: how many bytes it
// takes, and the text of the first error in it.
pub fn read(bytes: &[u8], depth: u32) -> Option<Walk>
    ensures within { Walked bytes.now result }
    ensures value { told_walk bytes.now result ≡ seen (value_of depth bytes.now) }
    ensures stands { Stood depth bytes.now result }
    ensures sound { Sound }
    ensures complete { Complete }
    ensures once { Unambiguous }
{
    walk(bytes, depth)
}

// The one value that the bytes are, with nothing behind it.
pub fn whole(bytes: &[u8], depth: u32) -> Option<Walk>
    ensures within { Walked bytes.now result }
    ensures all { IfSome result (λ w. w.len ≡ length bytes.now) }
    ensures value { told_whole bytes.now result ≡ option_map first_error (whole_value depth bytes.now) }
{
    read(bytes, depth).filter(|walk| walk.len == bytes.len())
}
