ghost use Rattle.std.specs.Prelude.{◌≡◌, true};
ghost use Rattle.node.specs.ByteKeys.{bytes_of};
ghost use Rattle.node.specs.Host.{host_form};

use crate::byte_key::ByteKey;

mod methods;
mod order;

pub use order::{comparison_is_the_order, equality_is_sameness, order_is_total};

#[derive(Clone, Copy, Debug)]
pub struct NodeAddress {
    host: ByteKey,
    port: u16,
    ghost formed: { host_form (bytes_of host) ≡ true },
}
