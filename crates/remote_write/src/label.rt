//! A label, where it stands.

/// A label: its name and its value, bytes where they stand.
#[derive(Clone, Copy, Debug)]
pub struct Label<'a> {
    pub name: &'a [u8],
    pub value: &'a [u8],
}
