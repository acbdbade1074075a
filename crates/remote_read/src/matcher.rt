//! A matcher, where it stands.

/// A matcher: its kind, the name of a label, and a value, bytes where they stand. The kinds are 0
/// for `=`, 1 for `!=`, 2 for `=~` and 3 for `!~`. Others have no meaning, and are the caller's to
/// refuse.
#[derive(Clone, Copy, Debug)]
pub struct Matcher<'a> {
    pub kind: u64,
    pub name: &'a [u8],
    pub value: &'a [u8],
}
