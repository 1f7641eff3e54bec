//! What a value was. Only proofs read it.
ghost use Rattle.std.specs.Prelude.{◌≡◌};
ghost use Rattle.std.specs.Borrow.{ftrue};

use std::marker::{Model, PhantomData};

/// A value as it was, as contracts see it. It has no bytes and owns nothing, so it may go to any
/// thread whatever the value is.
#[derive(Drop)]
pub struct Was<T> {
    marker: PhantomData<T>,
    pub ghost value: { T },
}

impl<T> Model for Was<T> {
    ghost also_owns = { λ _. ftrue };
}

// A struct with `also_owns` has neither by itself. This one owns nothing.
unsafe impl<T> Send for Was<T> {}

unsafe impl<T> Sync for Was<T> {}

impl<T> Was<T> {
    pub fn of(value: &T) -> Was<T>
        ensures { result.value ≡ value.now }
    {
        let _ = value;
        Was {
            marker: PhantomData,
        }
    }
}
