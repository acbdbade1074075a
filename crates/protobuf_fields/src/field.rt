//! A field, with its value where it stands.

/// A field: its number, 1 to 2^29 - 1, and its value, of one of four kinds.
#[derive(Clone, Copy, Debug)]
pub enum Field<'a> {
    /// Kind 0, a number of at most ten bytes: whole numbers, truth values, choices.
    Number(u32, u64),
    /// Kind 1, eight bytes, the lowest first: the bits of a double, among others.
    Eight(u32, u64),
    /// Kind 2, bytes where they stand, after their length: texts, messages.
    Text(u32, &'a [u8]),
    /// Kind 5, four bytes, the lowest first.
    Four(u32, u32),
}
