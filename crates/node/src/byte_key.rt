ghost use Rattle.std.specs.Prelude.{◌≡◌, true};
ghost use Rattle.node.specs.Padded.{padded};

mod methods;
mod order;

pub(crate) const LONGEST: usize = 64;

// At most 64 bytes, of a size that is fixed.
#[derive(Clone, Copy, Debug)]
pub struct ByteKey {
    // Bytes and a length, by hand: this crate has no heap, and the kit's ArrayVec is no Copy.
    bytes: [u8; LONGEST],
    len: u8,
    // With zeros behind the bytes, one key has one form only.
    ghost formed: { padded bytes len ≡ true },
}
