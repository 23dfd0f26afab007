//! A value that clauses alone read.

ghost use Rattle.std.specs.Prelude.{◌≡◌};
ghost use Rattle.std.specs.Borrow.{ftrue};

use std::marker::{Model, PhantomData};

/// What a value shows as a `T`.
pub trait Shows<T> {
    ghost shown: { Self → T };
}

/// A `T` as clauses see it. It takes no memory: it exists in proofs alone.
#[derive(Drop)]
pub struct Ghost<T> {
    marker: PhantomData<T>,
    ghost value: { T },
}

impl<T> Model for Ghost<T> {
    ghost Value = { T };

    ghost view = { λ g. g.value };

    ghost also_owns = { λ _. ftrue };
}

impl<T> Ghost<T> {
    /// What a value shows.
    pub fn of<X: Shows<T>>(_x: &X) -> Ghost<T>
        ensures { result ≡ X.shown _x.now }
    {
        Ghost {
            marker: PhantomData,
        }
    }
}
