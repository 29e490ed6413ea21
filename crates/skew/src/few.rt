// At most N things of one sort, held by value: nothing in the codec allocates. The struct stands alone in its file, since its ghost
// fields import every `ghost use` of the file, and specs name the struct.
ghost use Rattle.std.specs.Prelude.{◌≡◌, ◌≤◌, length};

use std::alloc::AllocError;

mod changing;
mod methods;
mod numbers;

// Clone and Copy are written by hand, since a derive is refused over ghost fields of a generic struct; so is one of a comparison, which would
// look at the cells behind the end too. A list is made by `empty` and `push` in a loop, whose invariant says plainly what stands in it; a list
// made of an iterator would promise what closures yield.
pub struct Few<T, const N: usize> {
    cells: [T; N],
    len: usize,
    ghost fits: { len ≤ N },
    ghost whole: { length cells ≡ N },
}

impl<T: Copy, const N: usize> Copy for Few<T, N> {}

impl<T: Copy, const N: usize> Clone for Few<T, N> {
    ghost is_clone = { λ s r. r ≡ s };

    ghost is_infallible = { λ _. Unit {0} };

    fn clone(&self) -> Result<Self, AllocError> {
        Ok(*self)
    }
}
