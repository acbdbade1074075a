//! The directory of a block, written so that no half of it can be taken for a whole.
//!
//! [`write_block`] makes a directory under another name, writes the four files of the block into
//! it, syncs each file and each directory, and only then gives it its name. So whatever fails, and
//! whenever the machine stops, nothing stands under the block's name, or the whole block does.
//! [`Disk`] is what it is written to: the host's file system, or one in memory. [`meta_text`] is
//! the text of a `meta.json`, and [`Values`] what it says that the values mean.
//!
//! It stands on `block` for the range that a `meta.json` says.
#![tactic(auto)]

mod disk;
mod folder;
mod meta;
mod step;
mod values;

pub use disk::{Disk, DiskError, HostDisk};
pub use folder::{Files, FolderError, Place, write_block};
pub use meta::meta_text;
pub use step::Step;
pub use values::Values;
