//! What the values of a store mean, as its name says.

ghost use Rattle.std.specs.Prelude.{◌≡◌};

use crate::store_journal::Beginning;
use block_folder::Values;
use std::marker::PhantomData;

/// What the values of the store of a name mean.
#[derive(Drop)]
pub struct Meaning<N: Beginning> {
    values: Values,
    of: PhantomData<N>,
    ghost is: { values ≡ N.first.values },
}

impl<N: Beginning> Meaning<N> {
    /// This meaning, which is that of the store.
    pub(crate) fn new(values: Values) -> Meaning<N>
        requires { values ≡ N.first.values }
    {
        Meaning {
            values,
            of: PhantomData,
        }
    }

    /// What the values mean.
    pub fn values(&self) -> Values
        ensures { result ≡ N.first.values }
    {
        self.values
    }
}
