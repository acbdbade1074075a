//! Which character of a pattern is what.

ghost use Rattle.std.specs.Prelude.{◌≡◌};
ghost use Rattle.text_choices.specs.Alternatives.{has_meaning};
ghost use Rattle.text_choices.specs.Alternatives.{is_mark, step, may_end};

use crate::atom::Atom;

/// A place in a pattern.
#[derive(Clone, Copy)]
pub enum Place {
    Inside,
    Escaped,
    Closed,
}

/// What a character of a pattern is.
#[derive(Clone, Copy)]
pub enum Step {
    Refuse,
    Goes(Place),
    Bar,
    Put(Atom),
}

fn has_meaning(c: char) -> bool
    ensures { result ≡ has_meaning c }
{
    matches!(
        c,
        '\\' | '.' | '+' | '*' | '?' | '(' | ')' | '|' | '[' | ']' | '{' | '}' | '^' | '$'
    )
}

fn is_mark(c: char) -> bool
    ensures { result ≡ is_mark c }
{
    c.is_ascii() && !c.is_ascii_alphanumeric() && c != '<' && c != '>'
}

impl Place {
    pub(crate) fn step(self, grouped: bool, c: char) -> Step
        ensures { result ≡ step grouped self c }
    {
        match self {
            Place::Inside => match c {
                '\\' => Step::Goes(Place::Escaped),
                '|' => Step::Bar,
                '.' => Step::Put(Atom::Any),
                ')' => {
                    if grouped {
                        Step::Goes(Place::Closed)
                    } else {
                        Step::Refuse
                    }
                }
                _ => {
                    if has_meaning(c) {
                        Step::Refuse
                    } else {
                        Step::Put(Atom::Char(c))
                    }
                }
            },
            Place::Escaped => {
                if is_mark(c) {
                    Step::Put(Atom::Char(c))
                } else {
                    Step::Refuse
                }
            }
            Place::Closed => Step::Refuse,
        }
    }

    pub(crate) fn may_end(self, grouped: bool) -> bool
        ensures { result ≡ may_end grouped self }
    {
        match self {
            Place::Inside => !grouped,
            Place::Escaped => false,
            Place::Closed => true,
        }
    }
}
