//! What a value was at an earlier moment, for clauses alone.
ghost use Rattle.std.specs.Prelude.{◌≡◌};
ghost use Rattle.std.specs.Borrow.{ftrue};

use std::marker::{Model, PhantomData};

/// A value as it was at an earlier moment, which clauses read as `value`. It has no bytes and owns nothing, so it may go to any
/// thread, as may what it is a part of; of std's `Snapshot` the check doesn't find the latter.
#[derive(Drop)]
pub struct Earlier<T> {
    marker: PhantomData<T>,
    pub ghost value: { T },
}

impl<T> Model for Earlier<T> {
    ghost also_owns = { λ _. ftrue };
}

impl<T> Earlier<T> {
    /// The value as it is now.
    pub fn of(value: &T) -> Earlier<T>
        ensures { result.value ≡ value.now }
    {
        let _ = value;
        Earlier {
            marker: PhantomData,
        }
    }
}

unsafe impl<T> Send for Earlier<T> {}

unsafe impl<T> Sync for Earlier<T> {}
