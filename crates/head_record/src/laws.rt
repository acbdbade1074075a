//! A start makes of what was saved the snapshot that it was saved of.

ghost use Rattle.std.specs.Prelude.{◌≡◌, List, map};
ghost use Rattle.block_folder.specs.declared.values.Values.{Values};
ghost use Rattle.head.specs.Heads.{BlockPart, IsSoundSnapshot, SnapshotParts, world_of};
ghost use Rattle.event_journal.specs.Holding.{AreInFront};
ghost use Rattle.head_record.specs.Saved.{Place, Saved, save, start};
ghost use Rattle.head_record.specs.Spelling.{head_texts};

/// Where each block lies at its place, a start of what was saved has the world of the snapshot
/// that it was saved of, and keeps what every snapshot keeps.
pub fn start_of_save()
    ensures world { (values : Values) (s : SnapshotParts) (places : List Place)
        (at : Place → BlockPart) → map at places ≡ s.blocks → world_of (start at (save values s places)) ≡ world_of s }
    ensures sound { (values : Values) (s : SnapshotParts) (places : List Place)
        (at : Place → BlockPart) → map at places ≡ s.blocks → IsSoundSnapshot s
        → IsSoundSnapshot (start at (save values s places)) }
{}

/// The contents of a head may stand before the events of a journal.
pub fn heads_are_in_front()
    ensures { (saved : Saved) → AreInFront (head_texts saved) }
{}
