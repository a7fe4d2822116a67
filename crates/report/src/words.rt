ghost use Rattle.std.specs.Prelude.{◌≡◌, Some};
ghost use Rattle.node.specs.Address.{name_of};
ghost use Rattle.report.specs.Words.{address_word, address_shown, or_dash};

use crate::show::Bytes;
use node::NodeAddress;
use std::fmt;

// `host:port`.
#[derive(Clone, Copy, Debug, PartialEq, Eq)]
pub(crate) struct Address<'a> {
    pub(crate) host: &'a [u8],
    pub(crate) port: u16,
}

impl<'a> From<&'a NodeAddress> for Address<'a> {
    ghost from_gives = { λ node address. address_shown address ≡ Some (address_word (name_of node.now)) };

    fn from(node: &'a NodeAddress) -> Address<'a> {
        Address {
            host: node.host(),
            port: node.port(),
        }
    }
}

impl fmt::Display for Address<'_> {
    ghost output = { address_shown };

    fn fmt<W: fmt::Write>(&self, f: &mut fmt::Formatter<W>) -> fmt::Result {
        write!(f, "{}:{}", Bytes(self.host), self.port)
    }
}

// A word, or `-` where there is none.
#[derive(Clone, Copy, Debug, PartialEq, Eq)]
pub(crate) struct OrDash<T>(pub(crate) Option<T>);

impl<T: fmt::Display> fmt::Display for OrDash<T> {
    ghost output = { λ w. or_dash T.output w.0 };

    fn fmt<W: fmt::Write>(&self, f: &mut fmt::Formatter<W>) -> fmt::Result {
        match &self.0 {
            None => f.write_str("-"),
            Some(word) => word.fmt(f),
        }
    }
}
