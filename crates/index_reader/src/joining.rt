//! The bodies of some entries behind those of others.

ghost use Rattle.std.specs.Prelude.{◌≡◌, ◌+◌, ◌<◌, ◌^◌, ◌++◌, map, All, IfOk, OnOk};
ghost use Rattle.index_reader.specs.CheckedFile.{bodies_seen};
ghost use Rattle.index_reader.specs.Reading.Flat.{moved, CanMove, references_in_order};

use crate::bodies::Bodies;
use crate::series::Series;
use std::alloc::AllocError;

/// The series, whose parts now stand behind so many other labels and chunks.
fn moved(series: Series, labels: usize, chunks: usize) -> Series
    requires { CanMove labels chunks series }
    ensures { result ≡ moved labels chunks series }
{
    Series {
        reference: series.reference,
        labels_start: labels + series.labels_start,
        labels_end: labels + series.labels_end,
        chunks_start: chunks + series.chunks_start,
        chunks_end: chunks + series.chunks_end,
    }
}

fn add_moved(
    series: &mut Vec<Series>,
    more: &[Series],
    labels: usize,
    chunks: usize,
) -> Result<(), AllocError>
    requires { All (CanMove labels chunks) more.now }
    ensures { OnOk result
        (series.new.items ≡ series.old.items ++ map (moved labels chunks) more.now) }
{
    for later in more {
        series.push(moved(*later, labels, chunks))?;
    }
    Ok(())
}

/// The bodies of both. It copies those of `back`.
pub fn joined(front: Bodies, back: Bodies) -> Result<Bodies, AllocError>
    ensures bodies { IfOk result (λ b. bodies_seen b ≡ bodies_seen front ++ bodies_seen back) }
    ensures referred { IfOk result (λ b. references_in_order b.series.items
        ≡ references_in_order front.series.items ++ references_in_order back.series.items) }
{
    let Bodies {
        mut labels,
        mut chunks,
        mut series,
    } = front;
    let Bodies {
        labels: mut more_labels,
        chunks: mut more_chunks,
        series: more,
    } = back;
    let label_count = labels.len();
    let chunk_count = chunks.len();
    labels.append(&mut more_labels)?;
    chunks.append(&mut more_chunks)?;
    add_moved(&mut series, &more, label_count, chunk_count)?;
    Ok(Bodies {
        labels,
        chunks,
        series,
    })
}
