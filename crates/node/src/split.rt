ghost use Rattle.std.specs.Prelude.{◌≡◌, ◌≤◌, length, IfSome};
ghost use Rattle.std.specs.Option.{option_map};
ghost use Rattle.node.specs.Named.{parted};
ghost use Rattle.node.specs.Readable.{Answer, Readings};
ghost use Rattle.node.specs.Text.{plain, host_len, port_behind, readable};

use crate::byte_key::LONGEST;
use crate::port::port;

// Where a text splits: its first `host` bytes are the host.
#[derive(Clone, Copy, Debug, PartialEq, Eq)]
pub struct Split {
    pub host: usize,
    pub port: u16,
}

// Whether the byte may stand in the host of a text.
fn is_plain(b: u8) -> bool
    ensures { result ≡ plain b }
{
    b.is_ascii_graphic() && b != b':' && b != b'[' && b != b']'
}

// How far a host would go.
fn plain_len(text: &[u8]) -> usize
    ensures within { result ≤ length text.now }
    ensures value { result ≡ host_len text.now }
{
    text.iter().take_while(|b| is_plain(**b)).count()
}

fn port_after_colon(text: &[u8]) -> Option<u16>
    ensures { result ≡ port_behind text.now }
{
    port(text.strip_prefix(b":")?)
}

// The host and the port that the text reads as: `host:port`, with no other colon and no bracket, and
// with the port from 1 to 65535 in digits that begin with no zero.
pub fn split_node_address(text: &[u8]) -> Option<Split>
    ensures within { IfSome result (λ s. s.host ≤ length text.now) }
    ensures value { option_map (parted text.now) result ≡ readable text.now }
    ensures answer { Answer text.now (option_map (parted text.now) result) }
{
    let host = plain_len(text);
    if !(1..=LONGEST).contains(&host) {
        return None;
    }
    let port = port_after_colon(&text[host..])?;
    Some(Split { host, port })
}

// A theorem, and nothing to run: `readable` finds what the rule says and nothing else, so that no text
// has two readings.
pub fn readable_is_the_rule()
    ensures { Readings readable }
{}
