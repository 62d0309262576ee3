//! What a value was.
ghost use Rattle.std.specs.Prelude.{◌≡◌};
ghost use Rattle.std.specs.Borrow.{ftrue};

use std::marker::{Model, PhantomData};

/// A value as it was when it was shown. Only proofs read it: it takes no memory, and does nothing.
#[derive(Drop)]
pub struct Was<T> {
    of: PhantomData<T>,
    pub ghost value: { T },
}

impl<T> Model for Was<T> {
    ghost also_owns = { λ _. ftrue };
}

impl<T> Was<T> {
    /// The value as it is now.
    pub fn shown(_now: &T) -> Was<T>
        ensures { result.value ≡ _now.now }
    {
        Was { of: PhantomData }
    }
}
