ghost use Rattle.std.specs.Prelude.{◌≡◌, ◌^◌, [], ◌∷◌};
ghost use Rattle.resp.specs.Number.{natural as natural_of, below, digits, signed};

// The number that one or more digits write, if it is below 2^64.
pub fn natural(text: &[u8]) -> Option<u64>
    ensures { result ≡ below (2 ^ 64) (natural_of text.now) }
{
    if text.is_empty() {
        return None;
    }
    let mut n: u64 = 0;
    // By hand: what `try_fold` comes to is not proved from its contract without an induction of our own.
    for c in text {
        n = with_digit(n, *c)?;
    }
    Some(n)
}

// One digit more behind those that made `n`.
fn with_digit(n: u64, c: u8) -> Option<u64>
    ensures { result ≡ below (2 ^ 64) (digits n (c ∷ [])) }
{
    let digit = char::from(c).to_digit(10)?;
    n.checked_mul(10)?.checked_add(u64::from(digit))
}

// The number that an optional sign and digits write, within 64 signed bits.
pub fn integer(text: &[u8]) -> Option<i64>
    ensures { result ≡ signed text.now }
{
    match text {
        [b'-', digits @ ..] => 0i64.checked_sub_unsigned(natural(digits)?),
        [b'+', digits @ ..] | digits => i64::try_from(natural(digits)?).ok(),
    }
}
