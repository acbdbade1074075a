//! The steps of writing a block.

ghost use Rattle.std.specs.Prelude.{◌≡◌, ◌∷◌, [], map, OnOk, OnErr};
ghost use Rattle.block_folder.specs.Steps.{call_of, DoesAll, DoesUpToOne};

use crate::disk::{Disk, DiskError};

/// A call of a disk that is to be made.
#[derive(Clone, Copy, Debug, Drop)]
pub enum Step<'a> {
    /// Make a directory.
    Make(&'a str),
    /// Write a file with these bytes, and sync it.
    Write(&'a str, &'a [u8]),
    /// Write a file of these pieces, one after another, and sync it.
    WritePieces(&'a str, &'a [Vec<u8>]),
    /// Sync a directory.
    Sync(&'a str),
    /// Give a directory another name.
    Rename(&'a str, &'a str),
}

fn do_step<D: Disk>(disk: &mut D, step: Step<'_>) -> Result<(), DiskError>
    ensures ok { OnOk result (DoesAll D.did (call_of step.entry ∷ []) disk.old disk.new) }
    ensures err { OnErr result (DoesUpToOne D.did (call_of step.entry ∷ []) disk.old disk.new) }
{
    match step {
        Step::Make(path) => disk.make(path),
        Step::Write(path, bytes) => disk.write(path, bytes),
        Step::WritePieces(path, pieces) => disk.write_pieces(path, pieces),
        Step::Sync(path) => disk.sync(path),
        Step::Rename(from, to) => disk.rename(from, to),
    }
}

/// Makes these calls one after another, up to the first that fails.
pub(crate) fn do_all<D: Disk>(disk: &mut D, steps: &[Step<'_>]) -> Result<(), DiskError>
    ensures ok { OnOk result (DoesAll D.did (map call_of steps.now) disk.old disk.new) }
    ensures err { OnErr result (DoesUpToOne D.did (map call_of steps.now) disk.old disk.new) }
{
    for step in steps {
        do_step(disk, *step)?;
    }
    Ok(())
}
