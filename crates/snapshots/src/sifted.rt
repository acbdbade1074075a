//! What a sifted commit leaves in the hands of its caller.

ghost use Rattle.std.specs.Prelude.{◌≡◌};

use crate::naming::Naming;
use crate::receipt::Receipt;
use head::Left;
use std::marker::Model;

/// What a sifted commit came to: the receipt of all that was published up to it, what was left out,
/// and whether a sample joined. Contracts see it as the list of the receipt beside these two.
#[derive(Drop)]
pub struct Sifted<J: Naming> {
    receipt: Receipt<J>,
    left: Left,
    joined: bool,
}

impl<J: Naming> Model for Sifted<J> {
    ghost use Rattle.snapshots.specs.Sifts.{SiftView};

    ghost Value = { SiftView };

    ghost view = { λ s. record { list = s.receipt; left = s.left; joined = s.joined } };
}

impl<J: Naming> Sifted<J> {
    pub(crate) fn of(receipt: Receipt<J>, left: Left, joined: bool) -> Sifted<J>
        ensures { result ≡ record { list = receipt; left = left; joined = joined } }
    {
        Sifted {
            receipt,
            left,
            joined,
        }
    }

    /// The receipt of all that was published up to the commit, with what it kept. If it kept
    /// nothing, it is the receipt of what it was sifted by.
    pub fn receipt(&self) -> &Receipt<J>
        ensures { result.now ≡ self.now.list }
    {
        &self.receipt
    }

    /// How many samples were left out for each reason, and why the first of them was.
    pub fn left(&self) -> Left
        ensures { result ≡ self.now.left }
    {
        self.left
    }

    /// Whether a sample joined, so that an event more was published.
    pub fn joined(&self) -> bool
        ensures { result ≡ self.now.joined }
    {
        self.joined
    }
}
