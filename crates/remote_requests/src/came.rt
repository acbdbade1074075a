//! What came on a connection.

/// How what came on a connection ended.
#[derive(Clone, Copy, Debug, PartialEq, Eq, Drop)]
pub enum End {
    /// The reader wants no more: a head and the body that it tells of stand there, or what stands
    /// there is refused whatever follows.
    Whole,
    /// The client closed.
    Closed,
    /// Nothing came within a limit of time.
    Silent,
    /// A read failed.
    Failed,
}

/// What came on a connection, from its first byte on, and how it ended.
#[derive(Clone, Copy, Debug)]
pub struct Came<'a> {
    pub bytes: &'a [u8],
    pub end: End,
}
