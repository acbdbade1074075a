//! Label sets as text.

ghost use Rattle.std.specs.Prelude.{◌≡◌, ◌++◌, ℕ, List, IfOk, OnOk};
ghost use Rattle.std.specs.List.{list_all};
ghost use Rattle.metrics_writer.specs.Series.{closing, escape, escaped_text, in_metric, is_metric};
ghost use Rattle.metrics_writer.specs.Series.{is_name_label, label_text, labels_text, mark_after};
ghost use Rattle.metrics_writer.specs.Series.{metric_of, pair_text, series_text};

use labels::LabelSet;
use std::alloc::{AllocError, Global};

const NAME: &str = "__name__";

fn in_metric(c: u8) -> bool
    ensures { result ≡ in_metric c }
{
    (c.is_ascii_alphabetic() || (c.is_ascii_digit() || c == b'_')) || c == b':'
}

fn are_in_metric(bytes: &[u8]) -> bool
    ensures { result ≡ list_all in_metric bytes.now }
{
    bytes.iter().all(|byte| in_metric(*byte))
}

/// Whether a text names a metric.
fn is_metric(text: &[u8]) -> bool
    ensures { result ≡ is_metric text.now }
{
    match text.split_first() {
        Some((first, rest)) => {
            !first.is_ascii_digit() && (in_metric(*first) && are_in_metric(rest))
        }
        None => false,
    }
}

/// The name of the metric of a label set, if it has one.
pub fn metric_of(labels: &LabelSet) -> &str
    ensures { result.now ≡ metric_of labels.now }
{
    labels.value(NAME)
}

/// Whether a label set names a metric.
pub fn names_metric(labels: &LabelSet) -> bool
    ensures { result ≡ is_metric (metric_of labels.now) }
{
    is_metric(metric_of(labels).as_bytes())
}

fn append_escape(out: &mut Vec<u8>, c: u8) -> Result<(), AllocError>
    ensures { OnOk result (out.new.items ≡ out.old.items ++ escape c) }
{
    match c {
        b'\\' => out.extend_from_slice(b"\\\\"),
        b'"' => out.extend_from_slice(b"\\\""),
        b'\n' => out.extend_from_slice(b"\\n"),
        _ => {
            out.push(c)?;
            Ok(())
        }
    }
}

#[tactic(auto, unfolding(crate::specs::Series::escaped_text))]
fn append_escaped(out: &mut Vec<u8>, text: &[u8]) -> Result<(), AllocError>
    ensures { OnOk result (out.new.items ≡ out.old.items ++ escaped_text text.now) }
{
    for c in text {
        append_escape(out, *c)?;
    }
    Ok(())
}

#[tactic(auto, unfolding(crate::specs::Series::pair_text))]
fn append_pair(out: &mut Vec<u8>, name: &str, value: &str) -> Result<(), AllocError>
    ensures { OnOk result (out.new.items ≡ out.old.items ++ pair_text (name.now, value.now)) }
{
    out.extend_from_slice(name.as_bytes())?;
    out.extend_from_slice(b"=\"")?;
    append_escaped(out, value.as_bytes())?;
    out.push(b'"')?;
    Ok(())
}

fn is_name_label(name: &str) -> bool
    ensures { (value : List ℕ) → result ≡ is_name_label (name.now, value) }
{
    name.as_bytes() == NAME.as_bytes()
}

// Appends a label after a mark, and gives the mark of the next.
fn append_label(out: &mut Vec<u8>, mark: u8, name: &str, value: &str) -> Result<u8, AllocError>
    ensures text { OnOk result (out.new.items
        ≡ out.old.items ++ label_text mark (name.now, value.now)) }
    ensures mark { IfOk result (λ m. m ≡ mark_after mark (name.now, value.now)) }
{
    if is_name_label(name) {
        return Ok(mark);
    }
    out.push(mark)?;
    append_pair(out, name, value)?;
    Ok(b',')
}

fn append_closing(out: &mut Vec<u8>, mark: u8) -> Result<(), AllocError>
    ensures { OnOk result (out.new.items ≡ out.old.items ++ closing mark) }
{
    if mark == b'{' {
        return Ok(());
    }
    out.push(b'}')?;
    Ok(())
}

#[tactic(auto, unfolding(crate::specs::Series::labels_text))]
fn append_labels(out: &mut Vec<u8>, labels: &LabelSet) -> Result<(), AllocError>
    ensures { OnOk result (out.new.items ≡ out.old.items ++ labels_text 123 labels.now) }
{
    let mut mark = b'{';
    for i in 0..labels.len() {
        let (name, value) = labels.pair(i);
        mark = append_label(out, mark, name, value)?;
    }
    append_closing(out, mark)
}

/// The name of the metric, and the other labels in braces.
#[tactic(auto, unfolding(crate::specs::Series::series_text))]
pub fn series_text(alloc: Global, labels: &LabelSet) -> Result<Vec<u8>, AllocError>
    ensures { IfOk result (λ text. text.items ≡ series_text labels.now) }
{
    let mut out = Vec::new(alloc);
    out.extend_from_slice(metric_of(labels).as_bytes())?;
    append_labels(&mut out, labels)?;
    Ok(out)
}
