//! Lists of references, kept as the bytes in which they were read.

ghost use Rattle.std.specs.List.Sorted.{IsStrictlyIncreasing};
ghost use Rattle.std.specs.Prelude.{◌≡◌, ◌<◌, length, map, slice_get, Some, All, IfOk, [], ◌++◌};
ghost use Rattle.std.specs.Prelude.{◌∷◌, ◌%◌, OnOk, OnErr};
ghost use Rattle.index_reader.specs.References.{references_in, IsList};
ghost use Rattle.index_reader.specs.Seen.{bytes_of};

use crate::postings::{Entries, slice_at};
use std::alloc::{AllocError, Global};
use std::marker::Model;

/// Where the references of a list stand.
#[derive(Clone, Copy, Debug)]
struct ListSpan {
    start: usize,
    end: usize,
}

/// Lists of ascending references, one after the other in one buffer.
#[derive(Debug, Drop)]
pub struct Lists {
    bytes: Vec<u8>,
    spans: Vec<ListSpan>,
}

impl Model for Lists {
    ghost use Rattle.std.specs.Prelude.{List, ℕ};

    ghost Value = { List (List ℕ) };

    ghost use Rattle.index_reader.specs.KeptLists.{kept_lists_at, AreListsAt};

    ghost view = { λ l. kept_lists_at l.bytes.items l.spans.items };

    ghost invariant = { λ l. AreListsAt l.bytes.items l.spans.items };
}

impl Lists {
    /// No list, with room for so many lists of so many bytes in all.
    pub fn with_capacity(alloc: Global, count: usize, len: usize) -> Result<Lists, AllocError>
        ensures { IfOk result (λ l. l ≡ []) }
    {
        let bytes = Vec::with_capacity(alloc, len)?;
        let spans = Vec::with_capacity(alloc, count)?;
        Ok(Lists { bytes, spans })
    }

    /// Adds a list at the end. An `Err` changes nothing.
    pub fn push(&mut self, list: &[u8]) -> Result<(), AllocError>
        requires whole { length list.now % 4 ≡ 0 }
        requires increasing { IsStrictlyIncreasing (references_in list.now) }
        ensures ok { OnOk result (self.new ≡ self.old ++ references_in list.now ∷ []) }
        ensures err { OnErr result (self.new ≡ self.old) }
    {
        let start = self.bytes.len();
        self.bytes.extend_from_slice(list)?;
        let end = self.bytes.len();
        self.spans.push(ListSpan { start, end })?;
        Ok(())
    }

    /// The list at a place. None of it is read yet.
    pub fn entries_at(&self, i: usize) -> Entries<'_>
        requires { i < length self.now }
        ensures list { slice_get self.now i ≡ Some result.0 }
        ensures unread { result.1 ≡ 0 }
        ensures increasing { IsStrictlyIncreasing result.0 }
    {
        let span = self.spans[i];
        Entries::new(&self.bytes[span.start..span.end])
    }
}

/// How many bytes there are in all.
fn room_of(lists: &[&[u8]]) -> usize {
    let mut room = 0usize;
    for list in lists {
        room = room.saturating_add(list.len());
    }
    room
}

/// A copy of lists.
pub fn copy_lists(alloc: Global, lists: &[&[u8]]) -> Result<Lists, AllocError>
    requires { All (λ l. IsList l.now) lists.now }
    ensures { IfOk result (λ l. l ≡ map references_in (bytes_of lists.now)) }
{
    let mut copy = Lists::with_capacity(alloc, lists.len(), room_of(lists))?;
    for at in 0..lists.len() {
        copy.push(slice_at(lists, at))?;
    }
    Ok(copy)
}
