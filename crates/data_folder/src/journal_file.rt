//! The journal of a folder, as a medium.

use crate::folder::Folder;
use journal::{Medium, MediumError};
use name_table::NameTable;

/// The name of the journal.
pub const JOURNAL: &str = "journal";

/// The file `journal` of a folder.
#[derive(Drop)]
pub struct JournalFile<F: Folder + Drop> {
    /// The folder.
    pub folder: F,
    /// The label sets that the contents of the journal have named.
    pub names: NameTable,
}

impl<F: Folder + Drop> Medium for JournalFile<F> {
    ghost use Rattle.std.specs.Prelude.{◌≡◌, Some, refl};
    ghost use Rattle.std.proofs.Common.{◌∙◌};
    ghost use Rattle.data_folder.specs.JournalFile.{journal_name, JournalLeft};
    ghost use Rattle.data_folder.specs.JournalLaws.{StaysBeside, all_stays, left_now, then_stays};

    ghost shows = { λ m bytes. F.shows m.folder journal_name (Some bytes) };

    ghost kept = { λ m n. F.kept m.folder journal_name n };

    ghost sound = { λ m. F.sound m.folder };

    ghost failed = { λ m. F.failed m.folder };

    ghost moment = { λ m. F.moment m.folder };

    ghost left_since = { λ m t bytes. JournalLeft F.left_since m.folder t bytes };

    ghost beside = { λ a b.
        StaysBeside F.shows F.kept F.moment F.left_since a.folder b.folder
        × (b.names ≡ a.names) };

    ghost stays = { λ m. (all_stays F.shows F.kept F.moment F.left_since m.folder, refl) };

    ghost goes_on = { λ a b c first second. (
      then_stays F.shows F.kept F.moment F.left_since
          (λ f t u left le fits had. F.earlier f t u left le fits had)
          a.folder b.folder c.folder first.0 second.0,
      second.1 ∙ first.1,
    ) };

    ghost only_now = { λ m bytes n left shown kept had.
        left_now n bytes left (had.0 journal_name) had.2
        (F.only_now m.folder journal_name (Some bytes) n had.0 shown kept had.1) };

    ghost earlier = { λ m t u left le fits had.
        (had.0, F.earlier m.folder t u had.0 le fits had.1, had.2) };

    fn append(&mut self, bytes: &[u8]) -> Result<(), MediumError> {
        self.folder.append(JOURNAL, bytes)
    }

    fn sync(&mut self) -> Result<(), MediumError> {
        self.folder.sync(JOURNAL)
    }

    fn cut(&mut self, len: usize) -> Result<(), MediumError> {
        self.folder.cut(JOURNAL, len)
    }
}
