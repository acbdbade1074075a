//! What a crash left of a journal.

ghost use Rattle.std.specs.Prelude.{◌≡◌, ◌++◌, ◌≤◌, ◌-◌, ◌↔◌, ℕ, List, Err, IfOk, IsErrOf, length};
ghost use Rattle.std.specs.Prelude.{take};
ghost use Rattle.std.specs.List.{AllByRecursion};
ghost use Rattle.wire.specs.Outcome.{Answers};
ghost use Rattle.wire.specs.Spelling.{IsBytes};
ghost use Rattle.journal.specs.Contents.{contents_in};
ghost use Rattle.journal.specs.Outcome.{GivesThese, IsAnswer, IsOfReading, Refuses, Scans};
ghost use Rattle.journal.specs.Reading.{after_header, record_at};
ghost use Rattle.journal.specs.Records.{file_of, header, magic, records_of, whole_in};
ghost use Rattle.journal.specs.Records.{Begins, BeginsOtherwise, HasBadLength, IsContent};
ghost use Rattle.journal.specs.Records.{IsDamaged, Recovers, Splits};

use crate::error::JournalError;
use crate::record::{Stop, record_of};
use std::alloc::{AllocError, Global};
use wire::Cut;

const MAGIC: u32 = 0x465A_4C4A;

const VERSION: u8 = 1;

/// What a file stands for.
#[derive(Drop)]
pub struct Recovered {
    /// The contents of the whole records, in their order.
    pub contents: Vec<Vec<u8>>,
    /// How many bytes the header and these records take. What stands after them is a torn end.
    pub len: usize,
}

#[tactic(auto, unfolding(crate::specs::Reading::after_header))]
fn after_header(file: &[u8]) -> Result<&[u8], JournalError>
    ensures { Answers (λ x. x.now) result (after_header file.now) }
{
    let mut cut = Cut::new(file);
    let magic = cut.be32().or(Err(JournalError::Magic))?;
    if magic != MAGIC {
        return Err(JournalError::Magic);
    }
    let version = cut.u8().or(Err(JournalError::Version))?;
    if version != VERSION {
        return Err(JournalError::Version);
    }
    Ok(cut.rest())
}

/// The whole records, the bytes after them, and why these begin no record.
fn records_of(alloc: Global, bytes: &[u8]) -> Result<(Vec<Vec<u8>>, &[u8], Stop), AllocError>
    ensures split { IfOk result (λ x. bytes.now
        ≡ records_of (contents_in x.0.items) ++ x.1.now) }
    ensures contents { IfOk result (λ x. AllByRecursion IsContent (contents_in x.0.items)) }
    ensures stop { IfOk result (λ x. record_at x.1.now ≡ Err x.2) }
{
    let mut contents = Vec::new(alloc);
    let mut rest = bytes;
    'records: loop {
        match record_of(rest) {
            Ok((content, after)) => {
                contents.push(content.to_vec(alloc)?)?;
                rest = after;
            }
            Err(stop) => return Ok((contents, rest, stop)),
        }
    }
}

/// What was read, where the bytes after the whole records stop for this reason.
fn ended(contents: Vec<Vec<u8>>, len: usize, stop: Stop) -> Result<Recovered, JournalError>
    ensures { IsAnswer contents len stop result }
{
    match stop {
        Stop::Torn => Ok(Recovered { contents, len }),
        Stop::Checksum => Err(JournalError::Checksum(len)),
        Stop::Length => Err(JournalError::Length(len)),
    }
}

fn scan(alloc: Global, file: &[u8]) -> Result<Recovered, JournalError>
    ensures { Scans file.now result }
{
    let bytes = after_header(file)?;
    let (contents, rest, stop) = records_of(alloc, bytes)?;
    ended(contents, file.len() - rest.len(), stop)
}

/// The contents of the whole records of a file that a crash may have left.
///
/// It takes a copy of each content, and time in proportion to the file. `J1` to `J4` are the first
/// fault from the front; where the file is refused, nothing of it is told.
pub fn recover(alloc: Global, file: &[u8]) -> Result<Recovered, JournalError>
    // What is answered are the whole records, after which nothing stands but a torn end.
    ensures found { IfOk result (λ r. Recovers file.now (contents_in r.contents.items)) }
    ensures len { IfOk result (λ r. r.len ≡ length (file_of (contents_in r.contents.items))) }
    // A file that stands for some contents gives these, unless memory runs out.
    ensures only { (contents : List (List ℕ)) → Recovers file.now contents
        → GivesThese (λ r. contents_in r.contents.items) contents result }
    // So after a crash that leaves the first n bytes, these are the contents whose records lie in
    // them.
    ensures crash { (contents : List (List ℕ)) (n : ℕ) → AllByRecursion IsContent contents → 5 ≤ n
        → file.now ≡ take n (file_of contents)
        → GivesThese (λ r. contents_in r.contents.items) (whole_in (n - 5) contents) result }
    // Whatever stands after whole records, they are answered first or the file is refused.
    ensures kept { (contents : List (List ℕ)) (tail : List ℕ) → AllByRecursion IsContent contents
        → file.now ≡ file_of contents ++ tail
        → IfOk result (λ r. (more : List (List ℕ))
        × (contents_in r.contents.items ≡ contents ++ more)) }
    // Damage is told with its place, unless memory runs out, and nothing else is told as damage.
    ensures checksum { (at : ℕ) → IsErrOf result (JournalError.Checksum at)
        → (contents : List (List ℕ)) × Splits IsDamaged file.now contents
        × (at ≡ length (file_of contents)) }
    ensures damaged { (contents : List (List ℕ)) → Splits IsDamaged file.now contents
        → Refuses (JournalError.Checksum (length (file_of contents))) result }
    ensures length { (at : ℕ) → IsErrOf result (JournalError.Length at)
        → (contents : List (List ℕ)) × Splits HasBadLength file.now contents
        × (at ≡ length (file_of contents)) }
    ensures bad_length { (contents : List (List ℕ)) → Splits HasBadLength file.now contents
        → Refuses (JournalError.Length (length (file_of contents))) result }
    // A file that begins otherwise is refused, and none that begins so.
    ensures magic { IsErrOf result JournalError.Magic ↔ BeginsOtherwise magic file.now }
    ensures version { IsErrOf result JournalError.Version
        ↔ (BeginsOtherwise header file.now × Begins magic file.now) }
    ensures reading { IsOfReading result }
{
    scan(alloc, file)
}

/// What is left of a file by a crash that leaves its first n bytes, and that one file stands for
/// one list.
pub fn what_a_crash_leaves()
    ensures leaves { (contents : List (List ℕ)) (n : ℕ) → AllByRecursion IsContent contents → 5 ≤ n
        → Recovers (take n (file_of contents)) (whole_in (n - 5) contents) }
    ensures synced { (synced later : List (List ℕ)) (n : ℕ) → length (file_of synced) ≤ n
        → (more : List (List ℕ)) × (whole_in (n - 5) (synced ++ later) ≡ synced ++ more) }
    ensures one { (file : List ℕ) (a b : List (List ℕ)) → IsBytes file → Recovers file a
        → Recovers file b → a ≡ b }
{}
