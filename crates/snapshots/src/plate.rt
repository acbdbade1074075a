//! What a press shows, and the right to show it.

ghost use Rattle.std.specs.Prelude.{◌≡◌};
ghost use Rattle.snapshots.specs.Rules.{IsRight};

use crate::entry::Mark;
use crate::log::Law;
use crate::version::Version;
use left_right::Absorb;
use logbook::Word;
use std::alloc::AllocError;
use std::marker::Model;

/// A right to show versions of a store. Contracts see it as the book of the store's log. It is a
/// word of that book, which has two such words: so a store has two rights, nobody makes a third,
/// and neither can be copied.
#[derive(Drop)]
pub struct Right {
    word: Word<Mark, u64, Law>,
}

impl Model for Right {
    ghost use Rattle.logbook.specs.Pages.{Book};
    ghost use Rattle.snapshots.specs.Rules.{IsRight};

    ghost Value = { Book };

    ghost view = { λ r. r.word.book };

    ghost invariant = { λ r. IsRight r.word };
}

impl Right {
    /// The right that the word is.
    pub fn of(word: Word<Mark, u64, Law>) -> Right
        requires { IsRight word }
        ensures { result ≡ word.book }
    {
        Right { word }
    }
}

/// A version that may be shown, beside a right to show it. A press has two plates at all times, the
/// one that passes read and the next one, so it holds both rights of its store. So no store has two
/// presses, and its passes read what its book publishes.
#[derive(Drop)]
pub struct Plate {
    pub version: Version,
    pub right: Right,
}

/// An operation is the whole next version. The right stays.
impl Absorb<Version> for Plate {
    type State = Plate;

    ghost use Rattle.snapshots.specs.Plates.{with_version};

    ghost state = { λ p. p };

    ghost applied = { with_version };

    fn absorb_first(&mut self, operation: &Version, _other: &Plate) -> Result<(), AllocError> {
        self.version = operation.share()?;
        Ok(())
    }

    fn absorb_second(&mut self, operation: Version, _other: &Plate) -> Result<(), Version> {
        self.version = operation;
        Ok(())
    }
}
