//! How many digits after the point are kept.

ghost use Rattle.std.specs.Prelude.{◌≡◌, ◌<◌, ◌≤◌, Some, None};

use std::marker::Model;

/// How many digits after the point are kept, from 0 to 9: values are counted in parts of which
/// 10^digits make one.
#[derive(Clone, Copy, Debug, PartialEq, Eq, Drop)]
pub struct Digits(u32);

impl Model for Digits {
    ghost use Rattle.std.specs.Prelude.{◌≤◌, ℕ};

    ghost Value = { ℕ };

    ghost view = { λ d. d.0 };

    ghost invariant = { λ d. d.0 ≤ 9 };

    ghost inverse = { λ n. record { 0 = n } };
}

impl Digits {
    /// So many digits, exactly where there are at most 9.
    pub fn new(number: u32) -> Option<Digits>
        ensures some { number ≤ 9 → result ≡ Some number }
        ensures none { 9 < number → result ≡ None }
    {
        if number <= 9 {
            Some(Digits(number))
        } else {
            None
        }
    }

    /// How many digits they are.
    pub fn number(self) -> u32
        ensures is { result ≡ self }
        ensures few { result ≤ 9 }
    {
        self.0
    }
}
