// A value as it was earlier. Only clauses read it.
ghost use Rattle.std.specs.Prelude.{◌≡◌};
ghost use Rattle.std.specs.Borrow.{ftrue};

use std::marker::{Model, PhantomData};

// It takes no bytes.
#[derive(Drop)]
pub(crate) struct Before<T> {
    marker: PhantomData<T>,
    pub(crate) ghost value: { T } by { T.code },
}

impl<T> Model for Before<T> {
    ghost also_owns = { λ _. ftrue };
}

impl<T> Before<T> {
    // The value as it is now.
    pub(crate) fn of(_value: &T) -> Before<T>
        ensures { result.value ≡ _value.now }
    {
        Before {
            marker: PhantomData,
        }
    }
}
