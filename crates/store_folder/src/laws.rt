//! What is left of a store, and what it stands for.

ghost use Rattle.std.specs.Prelude.{◌≡◌, List, Ok};
ghost use Rattle.data_folder.specs.Folders.{Left};
ghost use Rattle.head.specs.Heads.{BlockPart, SnapshotParts, world_of};
ghost use Rattle.head.specs.Resuming.{MayStand};
ghost use Rattle.head.specs.Worlds.{Event as Change, World, replayed};
ghost use Rattle.head_record.specs.Saved.{Saved};
ghost use Rattle.store_folder.specs.Origins.{Origin};
ghost use Rattle.store_folder.specs.Rewriting.{HaveSame};
ghost use Rattle.store_folder.specs.States.{IsState, MayStart, Means, StandsFor, started};
ghost use Rattle.store_folder.specs.States.{StartsWith};

/// What is left of a folder is the store of one world.
pub fn one_world()
    ensures { (left : Left) (v w : World) → StartsWith left v → StartsWith left w → v ≡ w }
{}

/// In what is left of a store, the values mean what they meant when it began.
pub fn one_meaning()
    ensures { (first : Origin) (events : List Change) (left : Left)
        → StandsFor first events left → Means first.values left }
{}

/// No start refuses the head and the blocks of what is left of a store, if they may be a snapshot.
pub fn may_start()
    ensures { (saved : Saved) (parts : List BlockPart) (events : List Change) (left : Left)
        → IsState saved parts events left → MayStand (started saved parts) → MayStart left }
{}

/// Blocks that were written anew by their rows make the same world.
pub fn rewritten_blocks()
    ensures { (first : World) (events : List Change) (s : SnapshotParts) (saved : Saved)
        (parts : List BlockPart) → HaveSame s.blocks parts → s.head ≡ saved.head
        → s.floor ≡ saved.floor → replayed first events ≡ Ok (world_of s)
        → replayed first events ≡ Ok (world_of (started saved parts)) }
{}
