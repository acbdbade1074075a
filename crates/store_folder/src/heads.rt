//! The text of a journal that has a head and no events.

ghost use Rattle.std.specs.Prelude.{[], IfOk, OnOk};
ghost use Rattle.event_journal.specs.Holding.{contents_with};
ghost use Rattle.head_record.specs.Spelling.{head_texts, IsSaved};
ghost use Rattle.journal.specs.Group.{IsJournalText};

use head_record::{HeadRecord, head_contents};
use journal::{JournalError, file_text};
use std::alloc::Global;

/// The text of a journal of this head and no events. `J5` if what is saved of a series is longer
/// than 2^26 bytes.
pub fn head_journal(alloc: Global, head: &HeadRecord) -> Result<Vec<u8>, JournalError>
    ensures text { IfOk result (λ text.
        IsJournalText (contents_with (head_texts head.now) []) text.items) }
    ensures saved { OnOk result (IsSaved head.now) }
{
    let contents = match head_contents(alloc, head) {
        Ok(contents) => contents,
        Err(_) => return Err(JournalError::Memory),
    };
    file_text(alloc, &contents)
}
