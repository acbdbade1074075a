//! The names of parts.

/// The name of a part among those that a query searches.
#[derive(Clone, Copy, Debug, PartialEq, Eq, Drop)]
pub enum PartName {
    /// The block at this place, from 0, in the order in which the blocks are given.
    Block(usize),
    /// The newest samples, which are in no block yet.
    Head,
}
