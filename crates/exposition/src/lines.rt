//! The lines of a text.

ghost use Rattle.std.specs.Prelude.{◌≡◌, ◌⊎◌, ◌==◌, ◌++◌, ◌+◌, ◌∷◌, [], List, ℕ, IfOk, IfErr};
ghost use Rattle.std.specs.Str.{bytes_eq};
ghost use Rattle.exposition.specs.Faults.{column_of};
ghost use Rattle.exposition.specs.Reading.{eof, IsCutInto, lines_in, texts_in};
ghost use Rattle.exposition.specs.Refusing.{AreBefore, IfRefused, IsEndless, MissesEnd};
ghost use Rattle.exposition.specs.declared.error.ReadError.TheVariants.{Refused};
ghost use Rattle.open_metrics.specs.declared.comments.Format.TheVariants.{OpenMetrics};

use crate::error::{Cause, ReadError, Refusal};
use open_metrics::Format;
use std::alloc::{AllocError, Global};

/// A line, and its number from 1.
#[derive(Clone, Copy, Drop)]
pub struct Numbered<'a> {
    pub number: u64,
    pub line: &'a [u8],
}

/// The refusal of a line at a column.
pub fn refused(line: u64, column: u64, cause: Cause) -> ReadError
    ensures { result ≡ Refused (record { line = line; column = column; cause = cause }) }
{
    ReadError::Refused(Refusal {
        line,
        column,
        cause,
    })
}

/// The column at which so many bytes of a line are left.
pub fn column_at(line: &[u8], left: usize) -> u64
    ensures { result ≡ column_of line.now left }
{
    line.len().saturating_sub(left) as u64 + 1
}

fn cut_all(alloc: Global, text: &[u8]) -> Result<Vec<&[u8]>, AllocError>
    ensures { IfOk result (λ lines. texts_in lines.items ≡ lines_in text.now) }
{
    text.split(|byte| *byte == b'\n').collect(alloc)
}

fn is_eof(line: &[u8]) -> bool
    ensures { result ≡ bytes_eq line.now eof }
{
    line == b"# EOF".as_slice()
}

// The lines before `# EOF`, which must be the last.
fn without_eof(lines: Vec<&[u8]>) -> Result<Vec<&[u8]>, ReadError>
    ensures found { IfOk result
        (λ front. texts_in lines.entry.items ≡ texts_in front.items ++ eof ∷ []) }
    ensures missing { IfErr result
        (λ e. IfRefused e (IsEndless (texts_in lines.entry.items))) }
{
    let missing = refused(lines.len() as u64 + 1, 1, Cause::End);
    let mut front = lines;
    let Some(last) = front.pop() else {
        return Err(missing);
    };
    if is_eof(last) {
        return Ok(front);
    }
    Err(missing)
}

// The lines before an empty one at the end.
fn without_empty(lines: Vec<&[u8]>) -> Result<Vec<&[u8]>, AllocError>
    ensures { IfOk result
        (λ front. AreBefore (texts_in lines.entry.items) (texts_in front.items)) }
{
    let mut front = lines;
    let Some(last) = front.pop() else {
        return Ok(front);
    };
    if !last.is_empty() {
        front.push(last)?;
    }
    Ok(front)
}

fn open_lines(lines: Vec<&[u8]>) -> Result<Vec<&[u8]>, ReadError>
    ensures found { IfOk result (λ front. IsCutInto OpenMetrics (texts_in lines.entry.items)
        (texts_in front.items)) }
    ensures missing { IfErr result
        (λ e. IfRefused e (MissesEnd OpenMetrics (texts_in lines.entry.items))) }
{
    let front = without_empty(lines)?;
    let rest = without_eof(front)?;
    Ok(rest)
}

/// The lines of a text, without its end.
pub fn lines_of(alloc: Global, format: Format, text: &[u8]) -> Result<Vec<&[u8]>, ReadError>
    ensures found { IfOk result
        (λ lines. IsCutInto format (lines_in text.now) (texts_in lines.items)) }
    ensures missing { IfErr result
        (λ e. IfRefused e (MissesEnd format (lines_in text.now))) }
{
    let lines = cut_all(alloc, text)?;
    match format {
        Format::OpenMetrics => {
            let front = open_lines(lines)?;
            Ok(front)
        }
        Format::Prometheus => Ok(lines),
    }
}
