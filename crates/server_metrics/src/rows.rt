//! The lines of a family.

ghost use Rattle.std.specs.Prelude.{◌≡◌, ◌++◌, decimal, OnOk, IfOk};
ghost use Rattle.server_metrics.specs.Rows.{kind_name, help_text, type_text, head_text};
ghost use Rattle.server_metrics.specs.Rows.{plain_text, row_text, path_text, front_text, rows_text};
ghost use Rattle.server_metrics.specs.Rows.{total, buckets_text, end_text, path_front};
ghost use Rattle.server_metrics.specs.Numbers.{seconds_text, signed_text};

use crate::numbers::{append_integer, append_number, append_seconds};
use std::alloc::{AllocError, Global};

/// What the numbers of a family are.
#[derive(Clone, Copy, Debug, PartialEq, Eq, Drop)]
pub(crate) enum Kind {
    Counter,
    Gauge,
    Histogram,
}

fn kind_name(kind: Kind) -> &'static str
    ensures { result.now ≡ kind_name kind }
{
    match kind {
        Kind::Counter => "counter",
        Kind::Gauge => "gauge",
        Kind::Histogram => "histogram",
    }
}

/// Appends a text.
pub(crate) fn append(out: &mut Vec<u8>, text: &str) -> Result<(), AllocError>
    ensures { OnOk result (out.new.items ≡ out.old.items ++ text.now) }
{
    out.extend_from_slice(text.as_bytes())
}

#[tactic(auto, unfolding(crate::specs::Rows::help_text))]
fn append_help(out: &mut Vec<u8>, name: &str, help: &str) -> Result<(), AllocError>
    ensures { OnOk result (out.new.items ≡ out.old.items ++ help_text name.now help.now) }
{
    append(out, "# HELP ")?;
    append(out, name)?;
    append(out, " ")?;
    append(out, help)?;
    append(out, "\n")
}

#[tactic(auto, unfolding(crate::specs::Rows::type_text))]
fn append_type(out: &mut Vec<u8>, name: &str, kind: Kind) -> Result<(), AllocError>
    ensures { OnOk result (out.new.items ≡ out.old.items ++ type_text name.now kind) }
{
    append(out, "# TYPE ")?;
    append(out, name)?;
    append(out, " ")?;
    append(out, kind_name(kind))?;
    append(out, "\n")
}

/// Appends what stands before the rows of a family.
#[tactic(auto, unfolding(crate::specs::Rows::head_text))]
pub(crate) fn append_head(
    out: &mut Vec<u8>,
    name: &str,
    kind: Kind,
    help: &str,
) -> Result<(), AllocError>
    ensures { OnOk result (out.new.items ≡ out.old.items ++ head_text name.now kind help.now) }
{
    append_help(out, name, help)?;
    append_type(out, name, kind)
}

/// Appends a row without labels.
#[tactic(auto, unfolding(crate::specs::Rows::plain_text))]
pub(crate) fn append_plain(out: &mut Vec<u8>, name: &str, n: u64) -> Result<(), AllocError>
    ensures { OnOk result (out.new.items ≡ out.old.items ++ plain_text name.now (decimal n)) }
{
    append(out, name)?;
    append(out, " ")?;
    append_number(out, n)?;
    append(out, "\n")
}

/// Appends a row without labels, of a number with a sign.
#[tactic(auto, unfolding(crate::specs::Rows::plain_text))]
pub(crate) fn append_signed(out: &mut Vec<u8>, name: &str, n: i64) -> Result<(), AllocError>
    ensures { OnOk result
        (out.new.items ≡ out.old.items ++ plain_text name.now (signed_text n)) }
{
    append(out, name)?;
    append(out, " ")?;
    append_integer(out, n)?;
    append(out, "\n")
}

/// Appends what ends a row after its last label.
#[tactic(auto, unfolding(crate::specs::Rows::end_text))]
pub(crate) fn append_end(out: &mut Vec<u8>, n: u64) -> Result<(), AllocError>
    ensures { OnOk result (out.new.items ≡ out.old.items ++ end_text (decimal n)) }
{
    append(out, "\"} ")?;
    append_number(out, n)?;
    append(out, "\n")
}

/// Appends a row whose last label is a number.
#[tactic(auto, unfolding(crate::specs::Rows::row_text))]
fn append_count(out: &mut Vec<u8>, front: &[u8], label: u64, n: u64) -> Result<(), AllocError>
    ensures { OnOk result
        (out.new.items ≡ out.old.items ++ row_text front.now (decimal label) n) }
{
    out.extend_from_slice(front)?;
    append_number(out, label)?;
    append_end(out, n)
}

/// Appends a row whose last label is a bound.
#[tactic(auto, unfolding(crate::specs::Rows::row_text))]
fn append_bucket(out: &mut Vec<u8>, front: &[u8], bound: u64, n: u64) -> Result<(), AllocError>
    ensures { OnOk result
        (out.new.items ≡ out.old.items ++ row_text front.now (seconds_text bound) n) }
{
    out.extend_from_slice(front)?;
    append_seconds(out, bound)?;
    append_end(out, n)
}

/// Appends a row whose last label is a constant.
#[tactic(auto, unfolding(crate::specs::Rows::row_text))]
pub(crate) fn append_word(
    out: &mut Vec<u8>,
    front: &[u8],
    word: &str,
    n: u64,
) -> Result<(), AllocError>
    ensures { OnOk result
        (out.new.items ≡ out.old.items ++ row_text front.now word.now n) }
{
    out.extend_from_slice(front)?;
    append(out, word)?;
    append_end(out, n)
}

/// Appends what stands before the value of a row of a path.
#[tactic(auto, unfolding(crate::specs::Rows::path_front))]
fn append_path_front(out: &mut Vec<u8>, name: &str, path: &str) -> Result<(), AllocError>
    ensures { OnOk result (out.new.items ≡ out.old.items ++ path_front name.now path.now) }
{
    append(out, name)?;
    append(out, "{path=\"")?;
    append(out, path)
}

/// Appends a row of a path with a number.
#[tactic(auto, unfolding(crate::specs::Rows::path_text, crate::specs::Rows::end_text))]
pub(crate) fn append_path(
    out: &mut Vec<u8>,
    name: &str,
    path: &str,
    n: u64,
) -> Result<(), AllocError>
    ensures { OnOk result
        (out.new.items ≡ out.old.items ++ path_text name.now path.now (decimal n)) }
{
    append_path_front(out, name, path)?;
    append_end(out, n)
}

/// Appends a row of a path with a time.
#[tactic(auto, unfolding(crate::specs::Rows::path_text, crate::specs::Rows::end_text))]
pub(crate) fn append_path_time(
    out: &mut Vec<u8>,
    name: &str,
    path: &str,
    microseconds: u64,
) -> Result<(), AllocError>
    ensures { OnOk result
        (out.new.items ≡ out.old.items
        ++ path_text name.now path.now (seconds_text microseconds)) }
{
    append_path_front(out, name, path)?;
    append(out, "\"} ")?;
    append_seconds(out, microseconds)?;
    append(out, "\n")
}

/// What stands before the last label of a row of a path.
#[tactic(auto, unfolding(crate::specs::Rows::front_text))]
pub(crate) fn front_of(
    alloc: Global,
    name: &str,
    path: &str,
    label: &str,
) -> Result<Vec<u8>, AllocError>
    ensures { IfOk result (λ front. front.items ≡ front_text name.now path.now label.now) }
{
    let mut front = Vec::new(alloc);
    append_path_front(&mut front, name, path)?;
    append(&mut front, "\",")?;
    append(&mut front, label)?;
    append(&mut front, "=\"")?;
    Ok(front)
}

/// Appends a row for each number and its count.
pub(crate) fn append_counts(
    out: &mut Vec<u8>,
    front: &[u8],
    labels: &[u64],
    counts: &[u64],
) -> Result<(), AllocError>
    ensures { OnOk result
        (out.new.items ≡ out.old.items ++ rows_text front.now labels.now counts.now) }
{
    let mut left = counts;
    for label in labels {
        let Some((n, rest)) = left.split_first() else {
            return Ok(());
        };
        append_count(out, front, *label, *n)?;
        left = rest;
    }
    Ok(())
}

/// Appends a row for each bound: how many lie at it or below.
pub(crate) fn append_buckets(
    out: &mut Vec<u8>,
    front: &[u8],
    bounds: &[u64],
    counts: &[u64],
) -> Result<(), AllocError>
    ensures { OnOk result
        (out.new.items ≡ out.old.items ++ buckets_text front.now 0 bounds.now counts.now) }
{
    let mut below = 0u64;
    let mut left = counts;
    for bound in bounds {
        let Some((n, rest)) = left.split_first() else {
            return Ok(());
        };
        below = below.saturating_add(*n);
        append_bucket(out, front, *bound, below)?;
        left = rest;
    }
    Ok(())
}

/// The sum of counts, or the greatest number where it is greater.
pub(crate) fn total(counts: &[u64]) -> u64
    ensures { result ≡ total counts.now }
{
    let mut sum = 0u64;
    for n in counts {
        sum = sum.saturating_add(*n);
    }
    sum
}
