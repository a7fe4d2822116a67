ghost use Rattle.std.specs.Prelude.{◌≡◌, ℕ, suc, List, Some, None, MatchOption};
ghost use Rattle.std.specs.Iterator.{at_most};
ghost use Rattle.std.specs.Option.{option_map};
ghost use Rattle.resp.specs.Value.{integer, Values};
ghost use Rattle.slot_map.specs.Answer.{array_of, integer_of};
ghost use Rattle.slot_map.specs.Elements.{Onward, Come, Stand, Gives, leading, Led};
ghost use Rattle.slot_map.specs.Front.{Front};

use errors::Refusal;
use resp::place::Head;
use resp::{token, value};

// The elements of an array that are still to come: how many, how deep each may be nested, and where the next
// begins. One that was handed out stays at the front, and is walked over only when another is asked for.
#[derive(Clone, Copy, Debug, PartialEq, Eq)]
pub(super) struct Elements<'a> {
    pub(super) count: usize,
    depth: u32,
    handed: bool,
    bytes: &'a [u8],
}

// The elements of the array at the front of `bytes`.
pub(super) fn array(bytes: &[u8], depth: u32) -> Option<Elements<'_>>
    ensures { Front (suc depth) bytes.now (λ v rest. MatchOption result (array_of v ≡ None) (λ e. Stand depth e rest v)) }
{
    let token = token::read(bytes)?;
    match token.head {
        Head::Array(count) => Some(Elements {
            count,
            depth,
            handed: false,
            bytes: &bytes[token.len..],
        }),
        _ => None,
    }
}

// The integer at the front of `bytes`, and the bytes behind it.
pub(super) fn integer(bytes: &[u8]) -> Option<(i64, &[u8])>
    ensures { (d : ℕ) → Front (suc d) bytes.now (λ v rest. MatchOption result (integer_of v ≡ None) (λ p. (v ≡ integer p.0) × (p.1.now ≡ rest))) }
{
    let token = token::read(bytes)?;
    match token.head {
        Head::Integer(z) => Some((z, &bytes[token.len..])),
        _ => None,
    }
}

// The bytes behind the value at the front of `bytes`.
fn skip(bytes: &[u8], depth: u32) -> Option<&[u8]>
    ensures { Front depth bytes.now (λ v rest. option_map (λ x. x.now) result ≡ Some rest) }
{
    let walk = value::read(bytes, depth)?;
    Some(&bytes[walk.len..])
}

impl<'a> Elements<'a> {
    // The bytes from the next element on.
    fn onward(self) -> Option<&'a [u8]>
        ensures { (front : List ℕ) → Onward self.entry.depth self.entry.handed self.entry.bytes.now front → option_map (λ x. x.now) result ≡ Some front }
    {
        if self.handed {
            skip(self.bytes, self.depth)
        } else {
            Some(self.bytes)
        }
    }

    // The integer that is the next element, which is passed by its own length, so that it is read once.
    pub(super) fn next_integer(&mut self) -> Option<i64>
        ensures { (d : ℕ) (vs : Values) (rest : List ℕ) → Come (suc d) self.old vs rest → MatchOption result (leading vs ≡ None) (λ z. Led (suc d) z vs self.new rest) }
    {
        let (z, behind) = integer(self.next()?.ok()?)?;
        self.bytes = behind;
        self.handed = false;
        Some(z)
    }
}

// The bytes from each element on.
impl<'a> Iterator for Elements<'a> {
    type Item = Result<&'a [u8], Refusal>;

    ghost next_gives = { Gives };

    ghost remaining = { λ e. at_most e.count };

    fn next(&mut self) -> Option<Result<&'a [u8], Refusal>> {
        self.count = self.count.checked_sub(1)?;
        let Some(element) = self.onward() else {
            return Some(Err(Refusal::Unreadable));
        };
        self.bytes = element;
        self.handed = true;
        Some(Ok(element))
    }
}
