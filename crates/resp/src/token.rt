ghost use Rattle.std.specs.Prelude.{◌≡◌, ◌∷◌};
ghost use Rattle.resp.specs.Reading.{head as head_of, minus_one, size as size_of};
ghost use Rattle.resp.specs.Told.{told, Tells, Texted, Within, told_size, Sized};

use crate::line::{is_ended, line, text_line};
use crate::number::{integer, natural};
use crate::place::{Head, Place, Size, Token};

// `-1` in the place of a length.
fn is_minus_one(text: &[u8]) -> bool
    ensures { result ≡ minus_one text.now }
{
    matches!(text, [b'-', b'1'])
}

// The length at the front of `bytes`, which is no larger than what stands behind it; inlined as `read` is.
#[inline(always)]
fn size(bytes: &[u8]) -> Option<Size>
    ensures within { Sized bytes.now result }
    ensures value { told_size bytes.now result ≡ size_of bytes.now }
{
    let n = line(bytes)?;
    let text = &bytes[..n];
    let len = n + 2;
    if is_minus_one(text) {
        return Some(Size { len, count: None });
    }
    let count = usize::try_from(natural(text)?).ok()?;
    if count > bytes.len() - len {
        return None;
    }
    Some(Size {
        len,
        count: Some(count),
    })
}

// A token whose text is the line behind the type byte; `kind` makes its head.
fn text<K: FnOnce(Place) -> Head>(rest: &[u8], kind: K) -> Option<Token>
    requires { K.IsAlwaysCallable kind }
    ensures { Texted (K.post kind) rest.now result }
{
    let n = text_line(rest)?;
    let head = kind(Place {
        start: 1,
        end: n + 1,
    });
    Some(Token { head, len: n + 3 })
}

fn number(rest: &[u8]) -> Option<Token>
    ensures { Tells (58 ∷ rest.now) result }
{
    let n = line(rest)?;
    let z = integer(&rest[..n])?;
    Some(Token {
        head: Head::Integer(z),
        len: n + 3,
    })
}

fn bulk_string(rest: &[u8]) -> Option<Token>
    ensures { Tells (36 ∷ rest.now) result }
{
    let size = size(rest)?;
    // By hand: Nil ends with its length, and a string has CR LF of its own, so that no combinator serves both.
    let Some(n) = size.count else {
        return Some(Token {
            head: Head::Nil,
            len: size.len + 1,
        });
    };
    let end = size.len + n;
    if !is_ended(&rest[end..]) {
        return None;
    }
    let head = Head::Bulk(Place {
        start: size.len + 1,
        end: end + 1,
    });
    Some(Token { head, len: end + 3 })
}

fn array(rest: &[u8]) -> Option<Token>
    ensures { Tells (42 ∷ rest.now) result }
{
    let size = size(rest)?;
    Some(Token {
        head: size.count.map_or(Head::Nil, Head::Array),
        len: size.len + 1,
    })
}

// What stands at the front of `bytes`: a value that is whole, or the head of an array. Inlined, since a call
// that hands the token over by memory makes a short answer slower by half.
#[inline(always)]
pub fn read(bytes: &[u8]) -> Option<Token>
    ensures within { Within bytes.now result }
    ensures value { told bytes.now result ≡ head_of bytes.now }
{
    match bytes {
        [b'+', rest @ ..] => text(rest, Head::Simple),
        [b'-', rest @ ..] => text(rest, Head::Error),
        [b':', rest @ ..] => number(rest),
        [b'$', rest @ ..] => bulk_string(rest),
        [b'*', rest @ ..] => array(rest),
        _ => None,
    }
}
