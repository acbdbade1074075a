//! A store that is copied beside its server, as often as its journal is begun anew meanwhile.

ghost use Rattle.std.specs.List.{AllByRecursion};
ghost use Rattle.std.specs.Prelude.{◌≡◌, IfErr, IfOk, true};
ghost use Rattle.store_backup.specs.Copies.{TellsSome};
ghost use Rattle.store_backup.specs.Reading.{IsOfStart};
ghost use Rattle.store_backup.specs.Tries.{AreLookedAt, IsTried};

use crate::copying::{Copied, copy_store};
use crate::error::CopyFault;
use data_folder::Folder;
use std::alloc::Global;
use std::thread::Threads;

/// Copies the store of a folder into another one, as [`copy_store`] does, by two views of the
/// first. Where it has changed meanwhile, it begins again, by the next two; the fault is `Changed`
/// if that does not do by the last ones either.
pub fn copy_between<R: Threads + Sync, F: Folder, G: Folder + Drop>(
    rt: &R,
    alloc: Global,
    views: &mut [(F, F)],
    target: G,
) -> Result<(Copied, G), (CopyFault, G)>
    requires views { AllByRecursion (λ v. (F.sound v.0 ≡ true) × (F.sound v.1 ≡ true)) views.old }
    requires target { G.sound target ≡ true }
    // Nothing is changed in the folder that is copied, by whichever view.
    ensures untouched { AreLookedAt F.shows F.kept F.moment F.left_since views.old views.new }
    // The target was left alone, and then it is as `copy_store` leaves it, by the first two of the
    // views by which the source has not changed.
    ensures tried { IsTried F.shows F.kept F.failed G.shows G.lists G.kept G.moment G.left_since
        views.old views.new target result }
    // Also where no clause knows what files have, it tells of events that are accepted.
    ensures tells { IfOk result (λ x. TellsSome x.0) }
    ensures told { IfErr result (λ e. IsOfStart e.0) }
{
    let mut target = target;
    for view in views.iter_mut() {
        match copy_store(rt, alloc, &mut view.0, &mut view.1, target) {
            Ok(done) => return Ok(done),
            Err((fault, left)) => match fault {
                CopyFault::Changed => target = left,
                _ => return Err((fault, left)),
            },
        }
    }
    Err((CopyFault::Changed, target))
}
