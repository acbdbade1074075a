//! The records of events.

ghost use Rattle.std.specs.Prelude.{◌≡◌, ◌⊎◌, ◌++◌, ◌∷◌, [], List, false, IfErr, OnOk, IsErrOf};
ghost use Rattle.std.specs.Prelude.{length};
ghost use Rattle.head.specs.Worlds.{Event as Change};
ghost use Rattle.event_text.specs.Spelling.{Spells};
ghost use Rattle.journal.specs.Records.{is_length};
ghost use Rattle.keeper.specs.Together.{SpellTogether};

use crate::error::{KeepError, keep_error};
use journal::push_record;

/// Appends the record of an event, by its text, to those of other events, with which it is kept
/// together. Where memory runs out, some of it may stand there.
pub fn push_text(records: &mut Vec<u8>, text: &[u8]) -> Result<(), KeepError>
    ensures ok { OnOk result ((events : List Change) (e : Change)
        → SpellTogether records.old.items events → Spells text.now e
        → SpellTogether records.new.items (events ++ e ∷ [])) }
    // A text of at most 2^26 bytes is refused for want of memory alone.
    ensures long { IsErrOf result KeepError.TooLong → is_length (length text.now) ≡ false }
    ensures other { IfErr result (λ e. (e ≡ KeepError.Memory) ⊎ (e ≡ KeepError.TooLong)) }
{
    match push_record(records, text) {
        Ok(()) => Ok(()),
        Err(error) => Err(keep_error(error)),
    }
}
