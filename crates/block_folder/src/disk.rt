//! What a block is written to.

ghost use Rattle.std.specs.Prelude.{◌∷◌, [], List, OnOk, OnErr};
ghost use Rattle.block_folder.specs.Steps.{Did, DoesAll, DoesUpToOne, Make, Write as WriteFile};
ghost use Rattle.block_folder.specs.Steps.{Sync, Rename, whole};

use std::fs::{self, File, OpenFile};
use std::io::{self, Write};
use std::rt::Files;

/// A call of a disk failed.
#[derive(Clone, Copy, Debug, PartialEq, Eq, Drop)]
pub struct DiskError;

/// A file system, as far as a block is written to it.
pub trait Disk {
    /// These calls were made, in this order, each with whether it was done.
    ghost did: { Self → List Did → Type 0 };

    /// Makes a directory where nothing stands.
    fn make(&mut self, path: &str) -> Result<(), DiskError>
        ensures ok { OnOk result (DoesAll did (Make path.now ∷ []) self.old self.new) }
        ensures err { OnErr result (DoesUpToOne did (Make path.now ∷ []) self.old self.new) };

    /// Writes a file where nothing stands, and syncs it.
    fn write(&mut self, path: &str, bytes: &[u8]) -> Result<(), DiskError>
        ensures ok { OnOk result
            (DoesAll did (WriteFile path.now bytes.now ∷ []) self.old self.new) }
        ensures err { OnErr result
            (DoesUpToOne did (WriteFile path.now bytes.now ∷ []) self.old self.new) };

    /// Writes a file of pieces, one after another, where nothing stands, and syncs it.
    fn write_pieces(&mut self, path: &str, pieces: &[Vec<u8>]) -> Result<(), DiskError>
        ensures ok { OnOk result
            (DoesAll did (WriteFile path.now (whole pieces.now) ∷ []) self.old self.new) }
        ensures err { OnErr result
            (DoesUpToOne did (WriteFile path.now (whole pieces.now) ∷ []) self.old self.new) };

    /// Syncs a directory: what was made and renamed in it stays.
    fn sync(&mut self, path: &str) -> Result<(), DiskError>
        ensures ok { OnOk result (DoesAll did (Sync path.now ∷ []) self.old self.new) }
        ensures err { OnErr result (DoesUpToOne did (Sync path.now ∷ []) self.old self.new) };

    /// Gives a directory another name, at once.
    fn rename(&mut self, from: &str, to: &str) -> Result<(), DiskError>
        ensures ok { OnOk result (DoesAll did (Rename from.now to.now ∷ []) self.old self.new) }
        ensures err { OnErr result
            (DoesUpToOne did (Rename from.now to.now ∷ []) self.old self.new) };
}

fn write_new<R: Files>(rt: &R, path: &str, bytes: &[u8]) -> io::Result<()> {
    let mut file = File::create_new(rt, path)?;
    file.write_all(bytes)?;
    file.sync_all()
}

fn write_new_pieces<R: Files>(rt: &R, path: &str, pieces: &[Vec<u8>]) -> io::Result<()> {
    let mut file = File::create_new(rt, path)?;
    for piece in pieces {
        file.write_all(piece.as_slice())?;
    }
    file.sync_all()
}

fn sync_folder<R: Files>(rt: &R, path: &str) -> io::Result<()> {
    File::open(rt, path)?.sync_all()
}

/// The host's file system: what its calls did, no clause can say.
#[derive(Drop)]
pub struct HostDisk<'a, R> {
    rt: &'a R,
}

impl<'a, R> HostDisk<'a, R> {
    /// The file system of a host.
    pub fn new(rt: &'a R) -> HostDisk<'a, R> {
        HostDisk { rt }
    }
}

impl<'a, R: Files> Disk for HostDisk<'a, R> {
    ghost did = { λ _ _. ⊥ };

    fn make(&mut self, path: &str) -> Result<(), DiskError> {
        fs::create_dir(self.rt, path).or(Err(DiskError))
    }

    fn write(&mut self, path: &str, bytes: &[u8]) -> Result<(), DiskError> {
        write_new(self.rt, path, bytes).or(Err(DiskError))
    }

    fn write_pieces(&mut self, path: &str, pieces: &[Vec<u8>]) -> Result<(), DiskError> {
        write_new_pieces(self.rt, path, pieces).or(Err(DiskError))
    }

    fn sync(&mut self, path: &str) -> Result<(), DiskError> {
        sync_folder(self.rt, path).or(Err(DiskError))
    }

    fn rename(&mut self, from: &str, to: &str) -> Result<(), DiskError> {
        fs::rename(self.rt, from, to).or(Err(DiskError))
    }
}
