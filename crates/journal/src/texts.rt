//! The texts of records and of whole journals.

ghost use Rattle.std.specs.Prelude.{◌≡◌, ◌⊎◌, ◌++◌, ◌∷◌, [], ℕ, List, false, IfOk, IfErr, OnOk};
ghost use Rattle.std.specs.Prelude.{IsErrOf, length};
ghost use Rattle.std.specs.List.{AllByRecursion};
ghost use Rattle.journal.specs.Contents.{contents_in};
ghost use Rattle.journal.specs.Group.{AreRecords, IsJournalText};
ghost use Rattle.journal.specs.Records.{is_length, record_of, IsContent};

use crate::error::JournalError;
use crate::record::{is_length, put_record};
use std::alloc::Global;

/// What a journal begins with.
pub(crate) const HEADER: [u8; 5] = [0x46, 0x5A, 0x4C, 0x4A, 1];

/// Appends the record of a content. Records that stand one after another can be kept together.
///
/// `J5` of a content that is empty or longer than 2^26 bytes. Where memory runs out, some of it may
/// stand there.
pub fn push_record(records: &mut Vec<u8>, content: &[u8]) -> Result<(), JournalError>
    ensures text { OnOk result (records.new.items ≡ records.old.items ++ record_of content.now) }
    ensures fits { OnOk result (IsContent content.now) }
    ensures together { OnOk result ((contents : List (List ℕ))
        → AreRecords contents records.old.items
        → AreRecords (contents ++ content.now ∷ []) records.new.items) }
    ensures size { IsErrOf result JournalError.Size → is_length (length content.now) ≡ false }
    ensures other { IfErr result (λ e. (e ≡ JournalError.Memory) ⊎ (e ≡ JournalError.Size)) }
{
    if !is_length(content.len()) {
        return Err(JournalError::Size);
    }
    put_record(records, content)?;
    Ok(())
}

/// The text of a whole journal: the header, and a record of each content. `J5` where a content is
/// empty or longer than 2^26 bytes.
pub fn file_text(alloc: Global, contents: &[Vec<u8>]) -> Result<Vec<u8>, JournalError>
    ensures text { IfOk result (λ text. IsJournalText (contents_in contents.now) text.items) }
    // Contents that fit are refused for want of memory alone.
    ensures only { AllByRecursion IsContent (contents_in contents.now)
        → IfErr result (λ e. e ≡ JournalError.Memory) }
{
    let mut text = Vec::new(alloc);
    text.extend_from_slice(&HEADER)?;
    for content in contents {
        match push_record(&mut text, content) {
            Ok(()) => {}
            Err(error) => return Err(error),
        }
    }
    Ok(text)
}
