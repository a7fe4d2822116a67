ghost use Rattle.std.specs.Prelude.{◌≡◌};
ghost use Rattle.node.specs.Host.{all_visible, host_form};

use crate::byte_key::LONGEST;

fn are_visible(bytes: &[u8]) -> bool
    ensures { result ≡ all_visible bytes.now }
{
    bytes.iter().all(u8::is_ascii_graphic)
}

pub(crate) fn is_host(bytes: &[u8]) -> bool
    ensures { result ≡ host_form bytes.now }
{
    (1..=LONGEST).contains(&bytes.len()) && are_visible(bytes)
}
