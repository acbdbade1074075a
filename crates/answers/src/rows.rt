//! Label sets and rows.

ghost use Rattle.std.specs.Prelude.{◌≡◌, ◌++◌, OnOk};
ghost use Rattle.answers.specs.Body.{row_data, json_labels, json_list};
ghost use Rattle.answers.specs.AfterCommas.{label_after_comma, labels_after_commas};
ghost use Rattle.answers.specs.AfterCommas.{row_after_comma, after_commas};

use crate::brackets::close_list;
use crate::samples::{ROOM, append_samples};
use crate::strings::append_closed;
use labels::{LabelSet, Row};
use std::alloc::AllocError;

/// Appends a comma, the name and the value.
fn append_label_after_comma(out: &mut Vec<u8>, name: &str, value: &str) -> Result<(), AllocError>
    ensures { OnOk result (out.new.items
        ≡ out.old.items ++ label_after_comma (name.now, value.now)) }
{
    out.extend_from_slice(b",\"")?;
    append_closed(out, name.as_bytes(), b"\":\"")?;
    append_closed(out, value.as_bytes(), b"\"")
}

/// Appends the labels, each with a comma before it.
fn append_labels_after_commas(out: &mut Vec<u8>, labels: &LabelSet) -> Result<(), AllocError>
    ensures { OnOk result (out.new.items ≡ out.old.items ++ labels_after_commas labels.now) }
{
    for at in 0..labels.len() {
        let (name, value) = labels.pair(at);
        append_label_after_comma(out, name, value)?;
    }
    Ok(())
}

/// Appends the label set as an object.
pub fn append_labels(out: &mut Vec<u8>, labels: &LabelSet) -> Result<(), AllocError>
    ensures { OnOk result (out.new.items ≡ out.old.items ++ json_labels labels.now) }
{
    // For the proof alone: the names of a label set rise.
    let _count = labels.len();
    let start = out.len();
    append_labels_after_commas(out, labels)?;
    close_list(out, start, b'{', b'}')
}

/// Appends a comma and the row.
fn append_row_after_comma(
    out: &mut Vec<u8>,
    buf: &mut [u8; ROOM],
    row: &Row,
) -> Result<(), AllocError>
    ensures { OnOk result (out.new.items ≡ out.old.items ++ row_after_comma row.now) }
{
    out.extend_from_slice(b",{\"labels\":")?;
    append_labels(out, row.labels())?;
    out.extend_from_slice(b",\"samples\":")?;
    append_samples(out, buf, row.samples())?;
    out.push(b'}')?;
    Ok(())
}

/// Appends the rows, each with a comma before it.
pub(crate) fn append_rows_after_commas(out: &mut Vec<u8>, rows: &[Row]) -> Result<(), AllocError>
    ensures { OnOk result (out.new.items ≡ out.old.items ++ after_commas row_data rows.now) }
{
    let mut buf = [0; ROOM];
    for row in rows {
        append_row_after_comma(out, &mut buf, row)?;
    }
    Ok(())
}

/// Appends the rows as a list.
pub fn append_rows(out: &mut Vec<u8>, rows: &[Row]) -> Result<(), AllocError>
    ensures { OnOk result (out.new.items ≡ out.old.items ++ json_list row_data rows.now) }
{
    let start = out.len();
    append_rows_after_commas(out, rows)?;
    close_list(out, start, b'[', b']')
}
