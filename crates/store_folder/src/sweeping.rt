//! The names of the files of a store.

ghost use Rattle.std.specs.Prelude.{◌≡◌, ◌++◌, IfOk, OnOk};
ghost use Rattle.data_folder.specs.Sweeping.{names_in};
ghost use Rattle.store_folder.specs.Sweeps.{names_at, names_of};

use crate::blocks::name_in;
use head_record::BlockPlace;
use std::alloc::{AllocError, Global};

fn push_files(alloc: Global, names: &mut Vec<String>, place: BlockPlace) -> Result<(), AllocError>
    ensures { OnOk result (names_in names.new.items ≡ names_in names.old.items ++ names_of place) }
{
    let number = place.folder();
    names.push(name_in(alloc, number, "meta.json")?)?;
    names.push(name_in(alloc, number, "index")?)?;
    names.push(name_in(alloc, number, "chunks/000001")?)?;
    names.push(name_in(alloc, number, "tombstones")?)?;
    Ok(())
}

/// The names of the files of the blocks at these places.
pub(crate) fn file_names(alloc: Global, places: &[BlockPlace]) -> Result<Vec<String>, AllocError>
    ensures { IfOk result (λ names. names_in names.items ≡ names_at places.now) }
{
    let mut names = Vec::new(alloc);
    for place in places {
        push_files(alloc, &mut names, *place)?;
    }
    Ok(names)
}
