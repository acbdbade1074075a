//! What stands for one character.

ghost use Rattle.std.specs.Prelude.{◌≡◌, MatchBool};
ghost use Rattle.text_choices.specs.Alternatives.{takes};

/// What stands for one character of a value.
#[derive(Clone, Copy)]
pub enum Atom {
    /// This one.
    Char(char),
    /// Any.
    Any,
}

impl Atom {
    /// Whether it is this one.
    pub fn is(self, other: Atom) -> bool
        ensures { MatchBool result (self ≡ other) (Unit {0}) }
    {
        match (self, other) {
            (Atom::Char(c), Atom::Char(d)) => c == d,
            (Atom::Any, Atom::Any) => true,
            (Atom::Char(_), Atom::Any) | (Atom::Any, Atom::Char(_)) => false,
        }
    }

    /// Whether it stands for this character.
    pub fn takes(self, c: char) -> bool
        ensures { result ≡ takes self c }
    {
        match self {
            Atom::Char(d) => c == d,
            Atom::Any => true,
        }
    }
}
