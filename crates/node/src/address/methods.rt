ghost use Rattle.std.specs.Prelude.{◌≡◌, is_some, IfSome, Some, codes};
ghost use Rattle.std.specs.Option.{option_map};
ghost use Rattle.node.specs.Address.{host_of, name_of};
ghost use Rattle.node.specs.Host.{host_form};
ghost use Rattle.node.specs.Made.{address};
ghost use Rattle.node.specs.Readable.{Answer};
ghost use Rattle.node.specs.Text.{readable};

use super::NodeAddress;
use crate::byte_key::ByteKey;
use crate::host::is_host;
use crate::split::{Split, split_node_address};

impl NodeAddress {
    // The address with this host and port, if the host is 1 to 64 bytes from 0x21 to 0x7E.
    pub fn new(host: &[u8], port: u16) -> Option<NodeAddress>
        ensures form { is_some result ≡ host_form host.now }
        ensures value { IfSome result (λ a. (host_of a ≡ host.now) × (a.port ≡ port)) }
        ensures made { result ≡ address host.now port }
    {
        if !is_host(host) {
            return None;
        }
        let host = ByteKey::new(host)?;
        Some(NodeAddress { host, port })
    }

    // An address for places that hold none: `?` is how a server names a node that it does not know.
    pub fn unknown() -> NodeAddress
        ensures { Some result ≡ address (codes "?") 0 }
    {
        NodeAddress {
            host: ByteKey::new(b"?").unwrap(),
            port: 0,
        }
    }

    // The address that the text reads as.
    pub fn parse(text: &[u8]) -> Option<NodeAddress>
        ensures value { option_map name_of result ≡ readable text.now }
        ensures answer { Answer text.now (option_map name_of result) }
    {
        let Split { host, port } = split_node_address(text)?;
        NodeAddress::new(&text[..host], port)
    }

    pub fn host(&self) -> &[u8]
        ensures { result.now ≡ host_of self.now }
    {
        self.host.bytes()
    }

    pub fn port(&self) -> u16
        ensures { result ≡ self.now.port }
    {
        self.port
    }
}
