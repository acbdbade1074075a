//! What a start finds of what a crash left.

ghost use Rattle.std.specs.Prelude.{◌≡◌, ◌++◌, ℕ, List, take};
ghost use Rattle.data_folder.specs.Folders.{HasFile, Left};
ghost use Rattle.data_folder.specs.JournalFile.{journal_name};
ghost use Rattle.head.specs.Heads.{BlockPart};
ghost use Rattle.head.specs.Worlds.{Event, World};
ghost use Rattle.head_record.specs.Saved.{Saved};
ghost use Rattle.keeper.specs.Finding.{AreAllAndSome, IsOfAll};
ghost use Rattle.store_laws.specs.Starts.{HasLeft};
ghost use Rattle.store_folder.specs.Holding.{AreAt, StandsForThese};
ghost use Rattle.store_folder.specs.Journals.{IsJournalOf};
ghost use Rattle.store_folder.specs.Origins.{Origin};
ghost use Rattle.store_folder.specs.States.{FindsOne, IsState, StandsFor, StartsWith};

use data_folder::Folder;

/// A start finds the world of the events for which there stands what a crash left.
pub fn finds_one()
    // It is the world of these events.
    ensures all { (first : Origin) (w : World) (events : List Event) (left : Left)
        → StandsFor first events left → IsOfAll first.world events w
        → FindsOne (λ (v : World). v ≡ w) left }
    // While more were being kept, that of these and of the first few of the others.
    ensures few { (first : Origin) (w : World) (events more : List Event) (left : Left)
        → StandsForThese first (AreAllAndSome events more) left
        → IsOfAll first.world (events ++ more) w
        → FindsOne (λ (v : World). (few : ℕ)
        × IsOfAll first.world (events ++ take few more) v) left }
    // It finds no other, whether they were accepted or not.
    ensures only { (first : Origin) (w : World) (events : List Event) (left : Left)
        → StandsFor first events left → StartsWith left w → IsOfAll first.world events w }
{}

/// A folder that has what a crash left has the store of it.
pub fn found_again<F: Folder>()
    ensures { (f : F) (left : Left) (saved : Saved) (parts : List BlockPart) (events : List Event)
        → HasLeft F.shows F.kept f left → IsState saved parts events left
        → (file : List ℕ) × HasFile F.shows F.kept journal_name file f
        × IsJournalOf file saved events × AreAt F.shows F.kept saved.places parts f }
{}
