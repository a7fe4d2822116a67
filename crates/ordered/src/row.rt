ghost use Rattle.std.specs.Prelude.{◌≡◌, ◌≤◌};

use std::alloc::AllocError;

mod methods;

// At most `N` items in the order in which they came. No derived equality: it would read the places behind them.
// An array and a count, by hand: this crate has no heap, and the kit's ArrayVec is no Copy.
pub struct Row<T, const N: usize> {
    pub(crate) items: [T; N],
    pub(crate) count: usize,
    ghost few: { count ≤ N },
}

// By hand: over a ghost field `Clone` is not derived where a type is a parameter.
impl<T: Copy, const N: usize> Clone for Row<T, N> {
    ghost is_clone = { λ r s. s ≡ r };

    ghost is_infallible = { λ _. Unit {0} };

    fn clone(&self) -> Result<Row<T, N>, AllocError> {
        Ok(*self)
    }
}

impl<T: Copy, const N: usize> Copy for Row<T, N> {}
