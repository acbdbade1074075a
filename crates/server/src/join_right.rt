//! The right to join the blocks of a store.

ghost use Rattle.std.specs.Prelude.{◌≡◌, true};

use snapshots::{JoiningNaming, OpenNaming};
use std::marker::PhantomData;

/// The right to ask for joins of the blocks of a store. Its name gives it, if it admits them.
#[derive(Drop)]
pub(crate) struct JoinRight<J: OpenNaming> {
    of: PhantomData<J>,
    ghost admits: { J.admits_joins ≡ true },
}

impl<J: JoiningNaming> JoinRight<J> {
    pub(crate) fn new() -> JoinRight<J> {
        JoinRight { of: PhantomData }
    }
}
