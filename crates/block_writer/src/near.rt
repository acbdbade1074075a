//! Where the labels of a row were found, by their places. Those of the next row are looked for
//! there first.

use std::alloc::{AllocError, Global};

/// Where what is at each place was found.
#[derive(Drop)]
pub struct Near {
    found: Vec<usize>,
}

impl Near {
    /// Nowhere.
    pub fn new(alloc: Global) -> Near {
        Near {
            found: Vec::new(alloc),
        }
    }

    /// Where that at a place was found, or 0.
    pub fn guess(&self, at: usize) -> usize {
        match self.found.get(at) {
            Some(found) => *found,
            None => 0,
        }
    }

    /// Keeps where that at a place was found.
    pub fn keep(&mut self, at: usize, found: usize) -> Result<(), AllocError> {
        if at < self.found.len() {
            self.found[at] = found;
            return Ok(());
        }
        self.found.push(found)?;
        Ok(())
    }
}

/// Where the names of labels were found, and their values.
#[derive(Drop)]
pub struct NearLabels {
    /// The names.
    pub names: Near,
    /// The values.
    pub values: Near,
}

impl NearLabels {
    /// Nowhere.
    pub fn new(alloc: Global) -> NearLabels {
        NearLabels {
            names: Near::new(alloc),
            values: Near::new(alloc),
        }
    }
}
