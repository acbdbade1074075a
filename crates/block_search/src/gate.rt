//! Who is told that a part is searched.

/// Is told of each part before it is searched, by the thread that searches it.
pub trait Gate: Sync {
    /// Called with the place of the part that this thread searches next: the number of a block, or
    /// for the head that of all blocks.
    fn reached(&self, part: usize);
}

/// A gate that holds nobody up.
#[derive(Clone, Copy, Debug)]
pub struct OpenGate;

impl Gate for OpenGate {
    fn reached(&self, _part: usize) {}
}
