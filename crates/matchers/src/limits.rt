//! How much may be asked for.

ghost use Rattle.std.specs.Prelude.{◌≡◌};
ghost use Rattle.matchers.specs.Limits.{most_matchers};

use crate::MAX_MATCHERS;

/// How many matchers stand together, and how large their patterns are.
#[derive(Clone, Copy, Debug, PartialEq, Eq)]
pub enum Limits {
    /// 16 matchers, and patterns of 256 bytes.
    Short,
    /// 64 matchers, and patterns of 256 bytes, or of 65,536 where they are choices of texts.
    Long,
}

impl Limits {
    /// The most matchers.
    pub fn most_matchers(self) -> usize
        ensures { result ≡ most_matchers self }
    {
        match self {
            Limits::Short => MAX_MATCHERS,
            Limits::Long => 64,
        }
    }
}
