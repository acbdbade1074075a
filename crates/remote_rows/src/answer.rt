//! One result of a reply.

ghost use Rattle.std.specs.Prelude.{◌≡◌, [], ◌∷◌, ◌++◌, List, OnOk};
ghost use Rattle.remote_rows.specs.Sent.{Answer, IsReplyTo};
ghost use Rattle.remote_rows.specs.Adding.{AddsSeries};

use crate::series::fill;
use labels::Row;
use remote_write::{Series, put_series, put_text};
use std::alloc::{AllocError, Global};

/// Appends the series of rows one after another.
fn put_rows(
    alloc: Global,
    out: &mut Vec<u8>,
    rows: &[Row],
    names_alone: bool,
) -> Result<(), AllocError>
    ensures { OnOk result (AddsSeries (names_alone, rows.now) out.old.items out.new.items) }
{
    let mut room = Vec::new(alloc);
    let mut small = Vec::new(alloc);
    let mut series = Series {
        labels: Vec::new(alloc),
        samples: Vec::new(alloc),
        histograms: 0,
    };
    for row in rows {
        fill(&mut series, row, names_alone)?;
        put_series(out, &mut room, &mut small, &series)?;
    }
    Ok(())
}

/// Appends the rows of an answer to a reply, as one more result: a series for each row, in their
/// order, without its samples if label sets alone are asked for. It takes room for one series, and
/// for what is written of the answer.
pub fn put_answer(
    alloc: Global,
    out: &mut Vec<u8>,
    rows: &[Row],
    names_alone: bool,
) -> Result<(), AllocError>
    ensures { (front : List Answer) → IsReplyTo front out.old.items
        → OnOk result (IsReplyTo (front ++ (names_alone, rows.now) ∷ []) out.new.items) }
{
    let mut result = Vec::new(alloc);
    put_rows(alloc, &mut result, rows, names_alone)?;
    put_text(out, 1, result.as_slice())
}
