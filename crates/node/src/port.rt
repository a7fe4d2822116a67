ghost use Rattle.std.specs.Prelude.{◌≡◌};
ghost use Rattle.node.specs.Port.{port_of};

// The most digits that a port has without a leading zero.
const MOST_DIGITS: usize = 5;

// The port that the digits write, if they write one without a leading zero.
pub(crate) fn port(digits: &[u8]) -> Option<u16>
    ensures { result ≡ port_of digits.now }
{
    let [b'1'..=b'9', ..] = digits else {
        return None;
    };
    // More digits are not looked at, however many they are.
    if digits.len() > MOST_DIGITS {
        return None;
    }
    let text = str::from_utf8(digits).ok()?;
    text.parse().ok()
}
