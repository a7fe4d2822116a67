ghost use Rattle.std.specs.Prelude.{◌≡◌, length, is_some, IfSome, nat_le};
ghost use Rattle.node.specs.ByteKeys.{bytes_of};

use super::{ByteKey, LONGEST};

impl ByteKey {
    // The key of these bytes, if they are at most 64.
    pub fn new(bytes: &[u8]) -> Option<ByteKey>
        ensures size { is_some result ≡ nat_le (length bytes.now) 64 }
        ensures value { IfSome result (λ k. bytes_of k ≡ bytes.now) }
    {
        if bytes.len() > LONGEST {
            return None;
        }
        let mut all = [0; LONGEST];
        all[..bytes.len()].copy_from_slice(bytes);
        Some(ByteKey {
            bytes: all,
            len: bytes.len() as u8,
        })
    }

    pub fn bytes(&self) -> &[u8]
        ensures { result.now ≡ bytes_of self.now }
    {
        &self.bytes[..usize::from(self.len)]
    }
}
