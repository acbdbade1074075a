//! The segments of a block, one of which is held at a time.

ghost use Rattle.std.specs.Prelude.{◌≡◌, ℕ, List, None, IfOk, OnOk};
ghost use Rattle.prometheus_block.specs.Series.{IsHeld, IsHeldAs};

use crate::error::SourceError;
use chunk_reader::Chunks;
use std::alloc::Global;

/// What gives the bytes of the segments of a block.
pub trait ReadSegments {
    /// What reading a segment, counted from 0, may find.
    ghost may_read: { Self → ℕ → List ℕ → Type 0 };

    /// The bytes of a segment.
    fn read_segment(&self, alloc: Global, number: u64) -> Result<Vec<u8>, SourceError>
        ensures { IfOk result (λ bytes. may_read self.now number bytes.items) };
}

/// The segment that is held.
#[derive(Drop)]
pub struct Held {
    pub(crate) number: u64,
    pub(crate) segment: Option<Chunks>,
}

impl Held {
    /// None.
    pub fn new() -> Held
        ensures { result.segment ≡ None }
    {
        Held {
            number: 0,
            segment: None,
        }
    }

    /// Holds the segment with this number, which is read unless it is held.
    pub(crate) fn hold<S: ReadSegments>(
        &mut self,
        alloc: Global,
        files: &S,
        number: u64,
    ) -> Result<(), SourceError>
        requires held { IsHeld (S.may_read files.now) self.old }
        ensures held { IsHeld (S.may_read files.now) self.new }
        ensures ok { OnOk result (IsHeldAs self.new number) }
    {
        if self.number == number && self.segment.is_some() {
            return Ok(());
        }
        self.segment = None;
        let segment = open_segment(alloc, files, number)?;
        self.segment = Some(segment);
        self.number = number;
        Ok(())
    }
}

fn open_segment<S: ReadSegments>(
    alloc: Global,
    files: &S,
    number: u64,
) -> Result<Chunks, SourceError>
    ensures { IfOk result (λ segment. S.may_read files.now number segment) }
{
    let bytes = files.read_segment(alloc, number)?;
    let segment = Chunks::open(bytes)?;
    Ok(segment)
}
