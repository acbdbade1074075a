//! What stands in a folder of a folder.

use crate::LoggedFolder;
use std::alloc::{AllocError, Global};

/// The first part of a path below a folder.
fn child_of<'a>(path: &'a str, folder: &str) -> Option<&'a str> {
    let below = path.strip_prefix(folder)?.strip_prefix('/')?;
    match below.split_once('/') {
        Some((child, _)) => Some(child),
        None => Some(below),
    }
}

fn are_with(names: &[String], name: &str) -> bool {
    names.iter().any(|other| other.as_str() == name)
}

impl LoggedFolder {
    /// The names in a folder below which a file stands.
    pub(crate) fn names_in(&self, alloc: Global, folder: &str) -> Result<Vec<String>, AllocError> {
        let mut names = Vec::new(alloc);
        for entry in &self.log {
            let path = entry.name.as_str();
            if let Some(child) = child_of(path, folder)
                && !self.is_free(path)
                && !are_with(&names, child)
            {
                names.push(String::from_str(alloc, child)?)?;
            }
        }
        Ok(names)
    }
}
