//! Why a number is refused.

ghost use Rattle.std.specs.Prelude.{◌≡◌};

/// Why no number could be read. It has no code: each format that has such numbers gives it one.
#[derive(Clone, Copy, Debug, PartialEq, Eq, Drop)]
pub enum VarintError {
    /// The bytes end within the number.
    Short,
    /// The tenth byte is 2 or more: the number is above 2^64 - 1, or longer than ten bytes.
    TooBig,
}
