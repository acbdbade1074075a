//! The text of an event of any kind.

ghost use Rattle.std.specs.Prelude.{◌≡◌, ◌++◌, IfOk, OnOk};
ghost use Rattle.head.specs.BatchRows.{batch_of_rows};
ghost use Rattle.head.specs.Batches.{IsEvent};
ghost use Rattle.head.specs.Worlds.{batch};
ghost use Rattle.event_text.specs.Spelling.{event_text, HasSpelling, Spells};

use crate::writing::{put_batch, put_cut, put_deletion, put_rows};
use head::{Event, EventView, RowBatch};
use std::alloc::{AllocError, Global};

/// Appends the one text of an event. Where memory runs out, some of it may stand there.
fn put_event(out: &mut Vec<u8>, event: &Event) -> Result<(), AllocError>
    ensures text { OnOk result (out.new.items ≡ out.old.items ++ event_text event.now) }
    ensures spelled { OnOk result (HasSpelling event.now) }
    ensures bounded { IsEvent event.now }
{
    match event.view() {
        EventView::Batch(samples) => put_batch(out, samples),
        EventView::Deletion(matchers, from, to) => put_deletion(out, matchers, from, to),
        EventView::Cut(at) => put_cut(out, at),
    }
}

/// The one text of an event.
pub fn text_of_event(alloc: Global, event: &Event) -> Result<Vec<u8>, AllocError>
    ensures { IfOk result (λ text. Spells text.items event.now) }
{
    let mut text = Vec::new(alloc);
    put_event(&mut text, event)?;
    Ok(text)
}

/// The one text of a batch that is held in rows.
pub fn text_of_rows(alloc: Global, rows: &RowBatch) -> Result<Vec<u8>, AllocError>
    ensures { IfOk result (λ text. Spells text.items (batch (batch_of_rows rows.now))) }
{
    let mut text = Vec::new(alloc);
    put_rows(alloc, &mut text, rows.rows())?;
    Ok(text)
}
